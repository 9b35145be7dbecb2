// Replays codes made from seeds and prints what the entry points answer; the file stdout holds the unchanged Rust's answers
// (compare/oracle). A line: seed, n, rows, addresses, k, P, q, E, checksums of row_start and rows, of every `check`, of the
// parity and of the encoded word, and the syndrome weights of the encoded word, of it with three bits flipped, and of random bytes.
#![tactic(auto)]

ghost use Rattle.std.specs.Prelude.{◌<◌, ◌≤◌};

use ldpc_shape::Sizes;
use refusal::Refusal;
use std::fmt;
use std::fmt::Write;
use vectors::{Stdout, checksum, draw, next};

// The checksum with several numbers more.
fn checksum_all<T: Copy + Into<u32>>(h: u32, s: &[T]) -> u32 {
    s.iter().fold(h, |h, &v| checksum(h, v.into()))
}

// A code's table.
#[derive(Clone, Copy)]
struct Table<'a> {
    n: u32,
    lens: &'a [u32],
    addrs: &'a [u16],
}

// The lengths of some rows, below `most`; where the generator is then.
fn make_rows(lens: &mut [u32], seed: u64, most: u64) -> u64
    requires { most ≤ 128 }
{
    let mut x = seed;
    for len in lens.iter_mut() {
        x = next(x);
        *len = draw(x, most) as u32;
    }
    x
}

fn total(lens: &[u32]) -> usize {
    lens.iter()
        .fold(0, |sum, &l| sum.saturating_add(l as usize))
}

// One address in four repeats the one before, one is P further and one is q further.
fn address(x: u64, before: u16, p: u16, q: u16) -> u16 {
    match draw(x, 4) {
        1 => before,
        2 => before.wrapping_add(p),
        3 => before.wrapping_add(q),
        _ => {
            let low = draw(next(x), 256) as u8;
            let high = draw(next(next(x)), 256) as u8;
            u16::from_be_bytes([high, low])
        }
    }
}

fn make_addresses(addrs: &mut [u16], seed: u64, p: u16, q: u16) -> u64 {
    let mut x = seed;
    let mut a = 0;
    for addr in addrs.iter_mut() {
        x = next(next(next(x)));
        a = address(x, a, p, q);
        *addr = a;
    }
    x
}

// Bytes with high bits set.
fn make_bytes(s: &mut [u8], seed: u64) -> u64 {
    let mut x = seed;
    for b in s.iter_mut() {
        x = next(x);
        *b = draw(x, 256) as u8;
    }
    x
}

fn flip(s: &mut [u8], x: u64) {
    if let Some(b) = s.get_mut(draw(x, s.len() as u64) as usize) {
        *b ^= 1;
    }
}

fn show_refused(refusal: Refusal) -> fmt::Result {
    write!(Stdout, "refused {} ", refusal.number())
}

fn show_weight(of: Table<'_>, word: &[u8]) -> fmt::Result {
    match ldpc::syndrome_weight(of.n, of.lens, of.addrs, word) {
        Ok(weight) => write!(Stdout, "{weight} "),
        Err(refusal) => show_refused(refusal),
    }
}

// The checksum with check c's list.
fn one_check(h: u32, of: Table<'_>, c: u32, out: &mut [u32]) -> u32 {
    match ldpc::check(of.n, of.lens, of.addrs, c, out) {
        Ok(m) => match out.get(..m as usize) {
            Some(list) => checksum_all(checksum(h, m), list),
            None => h,
        },
        Err(refusal) => checksum(h, refusal.number()),
    }
}

fn all_checks(of: Table<'_>, p: u32, out: &mut [u32]) -> u32 {
    let mut h = 0;
    for c in 0..p {
        h = one_check(h, of, c, out);
    }
    h
}

// The code's numbers, lists and checks; P, or 0 for a refused code.
fn show_code(of: Table<'_>, lists: &mut [u32]) -> Result<usize, fmt::Error> {
    match ldpc::new(of.n, of.lens, of.addrs, lists) {
        Err(refusal) => {
            show_refused(refusal)?;
            Ok(0)
        }
        Ok(Sizes { k, p, q, e, .. }) => {
            let made = checksum_all(0, lists);
            let checks = all_checks(of, p as u32, lists);
            write!(Stdout, "{k} {p} {q} {e} {made} {checks} ")?;
            Ok(p)
        }
    }
}

// Parity, encoded word and weights: of the encoded word, of it with three bits flipped, and of random bytes. A refused code's too.
fn show_words(of: Table<'_>, info: &[u8], out: &mut [u8], p: usize, seed: u64) -> fmt::Result {
    let mut to = Stdout;
    if let Err(refusal) = ldpc::parity(of.n, of.lens, of.addrs, info, out) {
        show_refused(refusal)?;
    }
    if let Some(parity) = out.get(..p) {
        let parity = checksum_all(0, parity);
        write!(to, "{parity} ")?;
    }
    if let Err(refusal) = ldpc::encode(of.n, of.lens, of.addrs, info, out) {
        show_refused(refusal)?;
    }
    let encoded = checksum_all(0, out);
    write!(to, "{encoded} ")?;
    show_weight(of, out)?;
    flip(out, seed);
    flip(out, next(seed));
    flip(out, next(next(seed)));
    show_weight(of, out)?;
    make_bytes(out, seed);
    show_weight(of, out)
}

// What a code is made of: a seed, its length of `units` times 374 bits, and `rows` rows of fewer than `most` addresses.
#[derive(Clone, Copy)]
struct Recipe {
    seed: u64,
    units: u32,
    rows: u32,
    most: u64,
    ghost sizes: { (rows < units) × (units ≤ 120) × (most ≤ 128) },
}

impl Recipe {
    // The t-th code: the first six have no rows, the next 62 have some and n up to 2,244, the last two n 44,880.
    fn nth(t: u32) -> Recipe
        requires { t < 70 }
    {
        let seed = u64::from(t);
        let x = next(next(seed * 7919 + 1));
        let y = next(x);
        if t < 6 {
            return Recipe {
                seed,
                units: t + 1,
                rows: 0,
                most: seed,
            };
        }
        if t < 68 {
            let units = 2 + draw(x, 5);
            let rows = 1 + draw(y, units - 1);
            let most = 2 + draw(next(y), 12);
            return Recipe {
                seed,
                units: units as u32,
                rows: rows as u32,
                most,
            };
        }
        Recipe {
            seed,
            units: 120,
            rows: 41 + (t - 68) * 48,
            most: 12,
        }
    }
}

// The memory that the codes are lent, one after the other. What a code finds in it is what the ones before left, so an element that a call leaves
// unwritten shows.
#[derive(Drop)]
struct Memory<'a> {
    lens: &'a mut [u32],
    addrs: &'a mut [u16],
    info: &'a mut [u8],
    out: &'a mut [u8],
    lists: &'a mut [u32],
}

impl Memory<'_> {
    // The code of a recipe, if there is so much memory.
    fn replay(self, recipe: Recipe) -> fmt::Result {
        let mut to = Stdout;
        let Recipe {
            seed,
            units,
            rows,
            most,
        } = recipe;
        let Memory {
            lens,
            addrs,
            info,
            out,
            lists,
        } = self;
        let n = units * 374;
        let k = rows * 374;
        let p = n - k;
        let Some(lens) = lens.get_mut(..rows as usize) else {
            return Ok(());
        };
        let x = make_rows(lens, seed, most);
        let total = total(lens);
        let Some(addrs) = addrs.get_mut(..total) else {
            return Ok(());
        };
        let y = make_addresses(addrs, x, p as u16, (p / 374) as u16);
        write!(to, "{seed} {n} {rows} {total} ")?;
        let of = Table { n, lens, addrs };
        let edges = total.saturating_mul(374).saturating_add(3 * p as usize);
        let (Some(info), Some(out), Some(lists)) = (
            info.get_mut(..k as usize),
            out.get_mut(..n as usize),
            lists.get_mut(..edges),
        ) else {
            return Ok(());
        };
        let checks = show_code(of, lists)?;
        let z = make_bytes(info, y);
        show_words(of, info, out, checks, z)?;
        writeln!(to)
    }

    fn replay_all(self) -> fmt::Result {
        let Memory {
            lens,
            addrs,
            info,
            out,
            lists,
        } = self;
        for t in 0..70 {
            let lent = Memory {
                lens: &mut *lens,
                addrs: &mut *addrs,
                info: &mut *info,
                out: &mut *out,
                lists: &mut *lists,
            };
            lent.replay(Recipe::nth(t))?;
        }
        Ok(())
    }
}

// Arrays, and no Vec: a heap would be assumed of the C library besides write.
fn main() {
    let mut lens = [0u32; 120];
    let mut addrs = [0u16; 2048];
    let mut info = [0u8; 44880];
    let mut out = [0u8; 44880];
    let mut lists = [0u32; 600000];
    let memory = Memory {
        lens: &mut lens,
        addrs: &mut addrs,
        info: &mut info,
        out: &mut out,
        lists: &mut lists,
    };
    let _ = memory.replay_all();
}
