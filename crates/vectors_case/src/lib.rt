// A case of vectors_run's input (compare/oracle/src/bin/run.rs): its numbers and its code, and the soft words that are made from its recipes.
#![tactic(auto)]

ghost use Rattle.std.specs.Prelude.{◌≡◌, ℕ, pos, ◌-ℤ◌, ◌+◌, ◌<◌, ◌≤◌, ◌*◌, ◌/◌, ◌++◌, IfSome, IsSome, MatchOption, drop, length, slice_index};
ghost use Rattle.std.specs.List.{concat};
ghost use Rattle.vectors_case.specs.Format.{number, size_of, schedule_of, Reads};

use decoder_plan::{Limits, Part, Schedule, Settings};
use vectors::{bit, draw, next};

// A case. Numbers of several bytes stand lowest byte first.
#[derive(Drop)]
pub struct Case<'a> {
    pub n: u32,
    pub set: Settings,
    // How many records there is room for, and how much is lent.
    pub room: usize,
    pub soft: usize,
    pub out: usize,
    pub work: usize,
    pub lists: usize,
    pub lens: &'a [[u8; 4]],
    pub addrs: &'a [[u8; 2]],
    // The words' bits before noise, with what stands behind them (a recipe may start so late that its word reads on there), and how each word is
    // made of them: by `count` recipes in turn.
    pub bases: &'a [u8],
    pub count: usize,
    pub recipes: &'a [[u8; 12]],
    // A bit for each of a word's `checks`, word for word: whether the word leaves it unsatisfied. What stands behind the last follows here too.
    pub checks: usize,
    pub maps: &'a [u8],
}

// The twenty numbers of a head.
fn numbers(head: &[u8; 80]) -> [u32; 20]
    ensures { (i : ℕ) → i < 20 → slice_index result i ≡ number head.now i }
{
    let (chunks, _) = head.as_chunks();
    let chunks = chunks.first_chunk::<20>().unwrap();
    chunks.map(u32::from_le_bytes)
}

// So many parts of N bytes in front of the input, and what follows them.
fn part<const N: usize>(input: &[u8], count: u32) -> Option<(&[[u8; N]], &[u8])>
    requires { (0 < N) × (N ≤ 12) }
    ensures { MatchOption result (length input.now < count * N)
        (λ r. (length r.0.now ≡ count) × (input.now ≡ concat r.0.now ++ r.1.now) × (length r.1.now + count * N ≡ length input.now)) }
{
    let size = (count as usize).checked_mul(N)?;
    let (front, rest) = input.split_at_checked(size)?;
    let (parts, _) = front.as_chunks();
    Some((parts, rest))
}

impl<'a> Case<'a> {
    // The case in front of the input, and the input behind it.
    pub fn read(input: &'a [u8]) -> Option<(Case<'a>, &'a [u8])>
        ensures shorter { IfSome result (λ r. length r.1.now < length input.now) }
        ensures reads { IfSome result (λ r. Reads input.now r.0 r.1.now) }
        ensures complete { size_of input.now ≤ length input.now → IsSome result }
    {
        let (head, rest) = input.split_first_chunk::<80>()?;
        let [
            n,
            rows,
            total,
            soft,
            lanes,
            iterations,
            layered,
            step,
            offset,
            rounds,
            first,
            length,
            out,
            room,
            work,
            lists,
            bases,
            count,
            maps,
            checks,
        ] = numbers(head);
        let (lens, rest) = part(rest, rows)?;
        let (addrs, from_bases) = part(rest, total)?;
        let (_, rest) = from_bases.split_at_checked(bases as usize)?;
        let (recipes, from_maps) = part(rest, count)?;
        let (_, rest) = from_maps.split_at_checked(maps as usize)?;
        let case = Case {
            n,
            set: Settings {
                lanes,
                limits: Limits { iterations, rounds },
                schedule: schedule(layered, step),
                offset: below_zero((offset % 256) as u8),
                part: Part { first, length },
            },
            room: room as usize,
            soft: soft as usize,
            out: out as usize,
            work: work as usize,
            lists: lists as usize,
            lens,
            addrs,
            bases: from_bases,
            count: count as usize,
            recipes,
            checks: checks as usize,
            maps: from_maps,
        };
        Some((case, rest))
    }
}

// Layered by 1, or sequential: the cases have these two numbers. The archive's entry for C takes every number but 0 as layered.
fn schedule(layered: u32, step: u32) -> Schedule
    ensures { result ≡ schedule_of layered step }
{
    if layered == 1 {
        Schedule::Layered(step)
    } else {
        Schedule::Sequential
    }
}

// 128 less.
fn below_zero(x: u8) -> i8
    ensures { result ≡ pos x -ℤ pos 128 }
{
    (i16::from(x) - 128) as i8
}

// How a soft word is made: of the bits from `start` on, `a` from zero with noise up to `b`; of 256 values, chance turns `c` over, draws `d` afresh, and
// makes `e` extreme.
#[derive(Drop)]
struct Recipe {
    start: u16,
    a: u8,
    b: u8,
    c: u8,
    d: u8,
    e: u8,
    seed: u32,
}

impl From<[u8; 12]> for Recipe {
    fn from(s: [u8; 12]) -> Recipe {
        let [start_low, start_high, a, b, c, d, e, _, s0, s1, s2, s3] = s;
        Recipe {
            start: u16::from_le_bytes([start_low, start_high]),
            a,
            b,
            c,
            d,
            e,
            seed: u32::from_le_bytes([s0, s1, s2, s3]),
        }
    }
}

const EXTREME: [i8; 5] = [-128, -1, 0, 1, 127];

// A soft value from six states, x the first.
fn value(bit: bool, r: &Recipe, x: u64) -> i8 {
    let x1 = next(x);
    let x2 = next(x1);
    let x3 = next(x2);
    let x4 = next(x3);
    let x5 = next(x4);
    if draw(x5, 256) < u64::from(r.e) {
        return EXTREME[draw(next(x5), 5) as usize];
    }
    if draw(x3, 256) < u64::from(r.d) {
        return below_zero(draw(x4, 256) as u8);
    }
    let a = i16::from(r.a);
    let noise = draw(x1, 2 * u64::from(r.b) + 1) as i16 - i16::from(r.b);
    let v = if bit { noise - a } else { noise + a };
    let v = if draw(x2, 256) < u64::from(r.c) {
        -v
    } else {
        v
    };
    v.clamp(-128, 127) as i8
}

// Word w.
fn make_word(word: &mut [i8], bases: &[u8], r: &Recipe, w: usize) {
    let mut x = u64::from(r.seed) + w as u64 % 65536;
    for (i, v) in word.iter_mut().enumerate() {
        *v = value(bit(bases, usize::from(r.start) + i % 65536), r, x);
        for _ in 0..6 {
            x = next(x);
        }
    }
}

impl<'a> Case<'a> {
    // Every word of n soft values; what is left over stays. Of more than 1,000 recipes those behind are not taken.
    pub fn make_words(&self, soft: &mut [i8])
        ensures { let whole = length soft.old / self.now.n * self.now.n in drop whole soft.new ≡ drop whole soft.old }
    {
        let n = self.n as usize;
        if n == 0 || self.count == 0 {
            return;
        }
        let whole = soft.len() / n * n;
        for (w, word) in soft[..whole].chunks_exact_mut(n).enumerate() {
            let recipe = self.recipes.get(w % self.count % 1000);
            let r = Recipe::from(recipe.copied().unwrap_or([0; 12]));
            make_word(word, self.bases, &r, w);
        }
    }
}
