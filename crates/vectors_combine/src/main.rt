// Combines soft words that are made here, by the same rules as in compare/oracle/src/bin/combine.rs. Standard input has what a second model
// there gives: for each call a byte for the refusal, 0 for none, and a byte for each value that the output has afterwards, 128 more. Words
// that are accepted are also combined in three other orders.
#![tactic(auto)]

use std::fmt;
use std::fmt::Write;
use vectors::{Compared, Stdout, draw, mixed, next};

// Lengths of words.
const LENGTHS: [u32; 10] = [0, 1, 15, 16, 17, 31, 33, 64, 100, 748];

// Orders of eight words; of fewer, the order of those that are there.
const IN_TURN: [u32; 8] = [0, 1, 2, 3, 4, 5, 6, 7];

const OTHER_ORDERS: [[u32; 8]; 3] = [
    [7, 6, 5, 4, 3, 2, 1, 0],
    [1, 2, 3, 4, 5, 6, 7, 0],
    [6, 3, 1, 7, 4, 0, 5, 2],
];

const EXTREME: [i8; 6] = [-128, 127, -127, 0, 126, -1];

// Sums on either side of where the clamp begins.
const NEAR: [i16; 12] = [
    -130, -129, -128, -127, -126, -125, 125, 126, 127, 128, 129, 130,
];

// Lengths, how many soft values there are and how long the output is: lengths that are unequal, or add up to another number, also where it is
// the same modulo 2^32; outputs that are too short for a word or just long enough; and beside them what is accepted.
const ODD: [(&[u32], usize, usize); 40] = [
    (&[], 0, 0),
    (&[], 0, 5),
    (&[], 7, 5),
    (&[0], 0, 0),
    (&[0], 0, 5),
    (&[0], 1, 5),
    (&[1], 0, 5),
    (&[0; 8], 0, 0),
    (&[0; 8], 0, 5),
    (&[0; 9], 0, 5),
    (&[0, 1], 1, 5),
    (&[1, 0], 1, 5),
    (&[1, 0], 2, 5),
    (&[3, 4], 7, 5),
    (&[4, 3], 7, 5),
    (&[4, 3], 8, 5),
    (&[4, 3], 7, 0),
    (&[3, 4, 2], 9, 5),
    (&[4, 3, 4, 5], 16, 5),
    (&[5, 5, 5, 5, 5, 5, 5, 6], 41, 9),
    (&[5, 5, 5, 5, 5, 5, 5, 6], 40, 9),
    (&[5; 8], 40, 9),
    (&[5; 8], 40, 5),
    (&[5; 8], 40, 4),
    (&[5; 8], 40, 0),
    (&[5; 8], 39, 0),
    (&[5; 8], 41, 0),
    (&[5; 9], 45, 9),
    (&[5; 9], 40, 0),
    (&[64, 64], 128, 63),
    (&[64, 64], 128, 64),
    (&[64, 64], 128, 65),
    (&[536870912; 8], 0, 9),
    (&[536870913; 8], 8, 9),
    (&[1073741826, 1073741826, 1073741826, 1073741826], 8, 9),
    (&[2147483648, 2147483648], 0, 0),
    (&[2147483652, 2147483652], 8, 9),
    (&[4294967295], 0, 9),
    (&[4294967295, 4294967295], 0, 0),
    (&[4294967295, 1], 0, 9),
];

#[derive(Clone, Copy)]
enum Kind {
    // All 256 values.
    Any,
    // Extreme values.
    Extreme,
    // Extreme values, at a place the same in every word.
    Same,
    // The words' sum is one of `NEAR`.
    Near,
    // All 256 values in one word, zeros in the others.
    One,
}

const KINDS: [Kind; 5] = [Kind::Any, Kind::Extreme, Kind::Same, Kind::Near, Kind::One];

// The soft words of a call: so many of n values, which the call's number makes.
#[derive(Clone, Copy)]
struct Words {
    kind: Kind,
    count: u32,
    n: u32,
    number: u16,
}

fn any_value(x: u64) -> i8 {
    (draw(x, 256) as i16 - 128) as i8
}

impl Words {
    // The value of word k at place i: the first two words share a sum, and the other words of each pair have as much above zero as below.
    fn near(self, k: u32, i: usize) -> i8 {
        let place = u32::from(self.number) * 1024 + (i % 1024) as u32;
        let x = next(u64::from(mixed(place)));
        let sum = NEAR[draw(x, 12) as usize];
        let more = draw(next(x), 60) as i16;
        let v = match k {
            0 if self.count == 1 => sum,
            0 => (sum / 2).saturating_add(more),
            1 => sum.saturating_sub(sum / 2).saturating_sub(more),
            _ if k % 2 == 1 => -more,
            _ if k.saturating_add(1) < self.count => more,
            _ => 0,
        };
        v.clamp(-128, 127) as i8
    }

    // The value of word k at place i, from a state.
    fn value(self, k: u32, i: usize, x: u64) -> i8 {
        let one = u32::from(self.number) % self.count.max(1);
        match self.kind {
            Kind::Any => any_value(x),
            Kind::Extreme => EXTREME[draw(x, 6) as usize],
            Kind::Same => EXTREME[i % 6],
            Kind::Near => self.near(k, i),
            Kind::One if k == one => any_value(x),
            Kind::One => 0,
        }
    }

    fn make_word(self, k: u32, word: &mut [i8]) {
        let mut x = u64::from(mixed(u32::from(self.number) * 8 + k % 8));
        for (i, v) in word.iter_mut().enumerate() {
            x = next(x);
            *v = self.value(k, i, x);
        }
    }

    // The words in an order.
    fn make(self, order: &[u32; 8], soft: &mut [i8]) {
        let n = self.n as usize;
        if n == 0 {
            return;
        }
        let own = order.iter().filter(|k| **k < self.count);
        for (word, k) in soft.chunks_exact_mut(n).zip(own) {
            self.make_word(*k, word);
        }
    }
}

// What the output holds before a call.
fn fill(out: &mut [i8]) {
    for (i, v) in out.iter_mut().enumerate() {
        *v = ((i % 256) as i16 - 128) as i8;
    }
}

// The answers that are left, and what was compared.
#[derive(Drop)]
struct Replay<'a> {
    answers: &'a [u8],
    calls: Compared,
    orders: Compared,
}

impl<'a> Replay<'a> {
    // The next answer: a byte for the refusal, and one for each value of an output of this length.
    fn answer(&mut self, room: usize) -> Option<(u8, &'a [u8])> {
        let (refused, rest) = self.answers.split_first()?;
        let (values, rest) = rest.split_at_checked(room)?;
        self.answers = rest;
        Some((*refused, values))
    }

    // The number of the next call.
    fn number(&self) -> u16 {
        (self.calls.all % 65536) as u16
    }

    // A call, compared with its answer. The first that differs is shown.
    fn call(&mut self, lengths: &[u32], soft: &[i8], out: &mut [i8]) {
        let call = self.number();
        fill(out);
        let number = match combine::combine(lengths, soft, out) {
            Ok(()) => 0,
            Err(refusal) => refusal.number(),
        };
        let right = self.answer(out.len()).is_some_and(|(refused, values)| {
            let mut both = out.iter().zip(values);
            number == u32::from(refused) && both.all(|(v, w)| i16::from(*v) + 128 == i16::from(*w))
        });
        if self.calls.count(right) {
            let _ = writeln!(Stdout, "first difference in call {call}");
        }
    }

    // The words of a call in another order, compared with what it gave. The first that differs is shown.
    fn reorder(
        &mut self,
        of: Words,
        order: &[u32; 8],
        lengths: &[u32],
        soft: &mut [i8],
        out: &[i8],
    ) {
        let mut again = [0; 754];
        let Some(again) = again.get_mut(..out.len()) else {
            return;
        };
        of.make(order, soft);
        fill(again);
        let right = combine::combine(lengths, soft, again).is_ok() && *again == *out;
        if self.orders.count(right) {
            let call = of.number;
            let _ = writeln!(Stdout, "first difference in another order, call {call}");
        }
    }

    // Words in turn, then in other orders. The output is up to six values longer than a word.
    fn words(&mut self, of: Words) {
        let mut soft = [0; 5984];
        let mut out = [0; 754];
        let lengths = [of.n; 8];
        let (n, count) = (of.n as usize, of.count as usize);
        let (Some(lengths), Some(soft), Some(out)) = (
            lengths.get(..count),
            soft.get_mut(..n.saturating_mul(count)),
            out.get_mut(..n + usize::from(of.number % 7)),
        ) else {
            return;
        };
        of.make(&IN_TURN, soft);
        self.call(lengths, soft, out);
        for order in &OTHER_ORDERS {
            self.reorder(of, order, lengths, soft, out);
        }
    }

    // A call with so many soft values of every kind and an output of this length.
    fn odd(&mut self, lengths: &[u32], size: usize, room: usize) {
        let mut soft = [0; 128];
        let mut out = [0; 66];
        let (Some(soft), Some(out)) = (soft.get_mut(..size), out.get_mut(..room)) else {
            return;
        };
        let of = Words {
            kind: Kind::Any,
            count: 1,
            n: 0,
            number: self.number(),
        };
        of.make_word(0, soft);
        self.call(lengths, soft, out);
    }

    fn replay_words(&mut self) {
        for kind in KINDS {
            for count in 1..9 {
                for n in LENGTHS {
                    let number = self.number();
                    self.words(Words {
                        kind,
                        count,
                        n,
                        number,
                    });
                }
            }
        }
    }

    // So many words of n values, with one value too few, the right number and one too many, in the input and in the output.
    fn short(&mut self, count: usize, n: u32) {
        let lengths = [n; 10];
        let Some(lengths) = lengths.get(..count) else {
            return;
        };
        let n = n as usize;
        for more in 0..3 {
            for room in 0..3 {
                let size = count.saturating_mul(n).saturating_add(more);
                let room = n.saturating_add(room);
                self.odd(lengths, size.saturating_sub(1), room.saturating_sub(1));
            }
        }
    }

    // Up to ten words of up to three values.
    fn replay_short(&mut self) {
        for count in 0..11 {
            for n in 0..4 {
                self.short(count, n);
            }
        }
    }

    fn replay_odd(&mut self) {
        for (lengths, size, room) in &ODD {
            self.odd(lengths, *size, *room);
        }
    }

    fn show(&self) -> fmt::Result {
        let mut to = Stdout;
        let Compared { all, differ } = self.calls;
        writeln!(to, "{all} calls compared, {differ} differ")?;
        let Compared { all, differ } = self.orders;
        writeln!(to, "{all} other orders compared, {differ} differ")
    }
}

// One value of -128: -127. Three words: sums of 126, -255 and 128.
fn figures() -> fmt::Result {
    let mut to = Stdout;
    let mut out = [0; 3];
    let mut one = [0];
    let soft = [127, -128, 100, 127, -128, 27, -128, 1, 1];
    let _ = combine::combine(&[1], &[-128], &mut one);
    let _ = combine::combine(&[3, 3, 3], &soft, &mut out);
    if one == [-127] && out == [126, -127, 127] {
        writeln!(to, "4 figures agree")
    } else {
        writeln!(to, "a figure differs")
    }
}

// A write that fails ends the program: what it wrote shows it.
fn main() {
    let mut answers = io::large_buffer();
    let n = io::read_full(0, &mut answers);
    let mut to = Replay {
        answers: &answers[..n],
        calls: Compared::default(),
        orders: Compared::default(),
    };
    to.replay_words();
    to.replay_short();
    to.replay_odd();
    let _ = to.show().and_then(|()| figures());
}
