// What the vectors' programs share: by these they make their inputs and sum up what they got, as compare/oracle does.
#![tactic(auto)]

ghost use Rattle.std.specs.Prelude.{◌≡◌, ◌-◌, ◌≤◌, ◌/◌, ◌%◌, ◌+◌, ◌↔◌, if◌then◌else◌, not, IsTrue, IsOk, slice_index};
ghost use Rattle.std.specs.Int.{bit_at};
ghost use Rattle.vectors.specs.Made.{next_of, draw_of, mixed_of, checksum_of, sum_of};

use std::fmt;
use std::fmt::Write;

// The generator's next state. A state goes by value, and no `Generator` steps it: that would be no plainer, since a soft value's draws stand out of
// order, an address passes three states whether it draws once or three times, and the information, the flipped bits and the bytes after them begin at states
// that were drawn from before.
pub fn next(x: u64) -> u64
    ensures { result ≡ next_of x }
{
    (x % 2147483648 * 1103515245 + 12345) % 2147483648
}

// A draw below m from a state; 0 where m is 0.
pub fn draw(x: u64, m: u64) -> u64
    ensures value { result ≡ draw_of x m }
    ensures below { result ≤ m - 1 }
{
    (x / 65536).checked_rem(m).unwrap_or(0)
}

// A number that i makes.
pub fn mixed(i: u32) -> u32
    ensures { result ≡ mixed_of i }
{
    i.wrapping_mul(2654435761).wrapping_add(1013904223)
}

// The checksum h with one number more.
pub fn checksum(h: u32, v: u32) -> u32
    ensures { result ≡ checksum_of h v }
{
    let sum = u64::from(h) * 31 + u64::from(v) + 1;
    (sum % 4294967291) as u32
}

// A sum over every byte and its place.
pub fn sum(bytes: &[u8]) -> u64
    ensures { result ≡ sum_of bytes.now }
{
    let mut h = 0;
    for &b in bytes {
        h = (h * 16411 + u64::from(b) + 1) % 281474976710597;
    }
    h
}

// Bit i, the lowest of a byte first; none behind the end is set.
pub fn bit(s: &[u8], i: usize) -> bool
    ensures { IsTrue result ↔ (bit_at (slice_index s.now (i / 8)) (i % 8) ≡ 1) }
{
    s.get(i / 8).is_some_and(|b| (*b >> (i % 8)) % 2 == 1)
}

// How many were compared, and how many of them differ.
#[derive(Clone, Copy, Debug, PartialEq, Eq, Default)]
pub struct Compared {
    pub all: u64,
    pub differ: u64,
}

impl Compared {
    // One comparison more; whether it is the first that differs.
    pub fn count(&mut self, right: bool) -> bool
        ensures all { self.new.all ≡ (self.old.all + 1) % 18446744073709551616 }
        ensures differ { self.new.differ ≡ (if right then self.old.differ else (self.old.differ + 1) % 18446744073709551616) }
        ensures first { IsTrue result ↔ IsTrue (not right) × (self.old.differ ≡ 0) }
    {
        self.all = self.all.wrapping_add(1);
        if right {
            return false;
        }
        let first = self.differ == 0;
        self.differ = self.differ.wrapping_add(1);
        first
    }
}

// Standard output, by the C library's write alone: `print!` would assume more of that library. A write that fails is passed over, since a program
// goes on after it with what it prints next, and ends as it does otherwise.
#[derive(Drop)]
pub struct Stdout;

impl Write for Stdout {
    fn write_str(&mut self, s: &str) -> fmt::Result
        ensures { IsOk result }
    {
        io::write_all(1, s.as_bytes());
        Ok(())
    }
}
