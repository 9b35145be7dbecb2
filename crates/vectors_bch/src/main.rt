// Writes the generator, then replays the Rust's BCH answers. Standard input has vectors of 148 bytes, described in
// compare/oracle/src/bin/bch.rs: how to make a word, and what the Rust's `encode` and `decode` made of
// it. An uncorrectable word stays as it came, where the Rust leaves flips in some.
#![tactic(auto)]

use arrayvec::ArrayString;
use std::fmt;
use std::fmt::Write;
use vectors::{Compared, Stdout, bit, sum};

// What a word's bytes are besides their low bits.
#[derive(Clone, Copy)]
enum HighBits {
    Set,
    Clear,
}

// A vector: how to make a word, what the Rust's `encode` and `decode` made of it, and the word after decoding.
#[derive(Clone, Copy)]
struct Vector<'a> {
    n: usize,
    seed: u32,
    high: HighBits,
    // Bits corrected, or None for uncorrectable.
    answer: Option<u32>,
    // Sums of the codeword and of the word after decoding.
    encoded: u64,
    decoded: u64,
    // The pattern, bit i the coefficient of x^i, is added times x^shift.
    shift: u32,
    // Where bits of the codeword are flipped.
    places: &'a [[u8; 2]],
    pattern: [u8; 24],
    // The low bits of the first 256 bytes after decoding.
    front: [u8; 32],
}

impl<'a> Vector<'a> {
    // The vector that these bytes are. Numbers of several bytes stand lowest byte first. Of the thirty places so many count as `errors` says, modulo 31, and
    // 255 bits corrected stand for uncorrectable.
    fn read(bytes: &'a [u8; 148]) -> Option<Vector<'a>> {
        let (n, rest) = bytes.split_first_chunk()?;
        let (seed, rest) = rest.split_first_chunk()?;
        let ([high, errors, answer, _], rest) = rest.split_first_chunk::<4>()?;
        let (encoded, rest) = rest.split_first_chunk()?;
        let (decoded, rest) = rest.split_first_chunk()?;
        let (shift, rest) = rest.split_first_chunk()?;
        let (places, rest) = rest.split_at_checked(60)?;
        let (pattern, rest) = rest.split_first_chunk()?;
        Some(Vector {
            n: u32::from_le_bytes(*n) as usize,
            seed: u32::from_le_bytes(*seed),
            high: if *high == 1 {
                HighBits::Set
            } else {
                HighBits::Clear
            },
            answer: (*answer != 255).then_some(u32::from(*answer)),
            encoded: u64::from_le_bytes(*encoded),
            decoded: u64::from_le_bytes(*decoded),
            shift: u32::from_le_bytes(*shift),
            places: places.as_chunks().0.get(..usize::from(*errors % 31))?,
            pattern: *pattern,
            front: *rest.first_chunk()?,
        })
    }

    // The bytes of the message from its seed: of each state the highest byte, whole or its low bit alone. The oracle makes them by this generator,
    // which is another than that of `vectors`.
    fn make(self, message: &mut [u8]) {
        let mut state = self.seed;
        for byte in message {
            state = state.wrapping_mul(1664525).wrapping_add(1013904223);
            let top = (state >> 24) as u8;
            *byte = match self.high {
                HighBits::Set => top,
                HighBits::Clear => top & 1,
            };
        }
    }

    // From the codeword to the word that is decoded: the listed errors, the pattern times x^shift, and high bits for the parity bytes.
    fn damage(self, word: &mut [u8]) {
        for place in self.places {
            if let Some(byte) = word.get_mut(usize::from(u16::from_le_bytes(*place))) {
                *byte ^= 1;
            }
        }
        let shift = self.shift as usize;
        for (i, byte) in word.iter_mut().rev().skip(shift).take(192).enumerate() {
            *byte ^= u8::from(bit(&self.pattern, i));
        }
        if let HighBits::Set = self.high {
            let front = word.len().saturating_sub(192);
            for (i, byte) in word.iter_mut().enumerate().skip(front) {
                *byte = *byte % 2 + (i % 128 * 2) as u8;
            }
        }
    }

    // Whether the word after decoding is the vector's: its sum, and the low bits of its first 256 bytes.
    fn agrees(self, word: &[u8]) -> bool {
        let mut front = word.iter().take(256).enumerate();
        sum(word) == self.decoded
            && front.all(|(i, byte)| byte % 2 == u8::from(bit(&self.front, i)))
    }

    // Whether a word is encoded and decoded as the vector says, in the front of the two buffers.
    fn replay(self, message: &mut [u8; 65343], word: &mut [u8; 65535]) -> bool {
        if !(193..=65535).contains(&self.n) {
            return false;
        }
        let message = &mut message[..self.n - 192];
        let word = &mut word[..self.n];
        self.make(message);
        if bch::encode(message, word).is_err() || sum(word) != self.encoded {
            return false;
        }
        self.damage(word);
        bch::decode(word) == Ok(self.answer) && self.agrees(word)
    }
}

// Every vector of the input, at most 10,000. The first that differs is named.
fn replay_all() -> fmt::Result {
    let mut to = Stdout;
    let mut vector = [0; 148];
    let mut message = [0; 65343];
    let mut word = [0; 65535];
    let mut compared = Compared::default();
    for _ in 0..10000u32 {
        if io::read_full(0, &mut vector) < vector.len() {
            break;
        }
        let right = Vector::read(&vector).is_some_and(|v| v.replay(&mut message, &mut word));
        let at = compared.all;
        if compared.count(right) {
            writeln!(to, "first at vector {at}")?;
        }
    }
    let Compared { all, differ } = compared;
    writeln!(to, "{all} compared, {differ} differ")
}

// The generator, multiplied out from Table 3.4-1, as one hexadecimal number: bit i is the coefficient of x^i.
fn print_generator() -> fmt::Result {
    let mut text = ArrayString::<50>::new();
    for digit in bch_table::generator().chunks(4).rev() {
        let mut value = 0u8;
        for bit in digit.iter().rev() {
            value = value << 1 | bit;
        }
        write!(text, "{value:x}")?;
    }
    writeln!(text)?;
    Stdout.write_str(text.as_str())
}

fn print_all() -> fmt::Result {
    print_generator()?;
    replay_all()
}

fn main() {
    let _ = print_all();
}
