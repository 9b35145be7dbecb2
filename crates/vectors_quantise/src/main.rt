// Replays the Rust's soft values. The inputs are made here, by the same rule as in
// compare/oracle/src/bin/quantise.rs; standard input has the Rust's answers, a byte each: the size,
// and 128 more where the soft value is negative.
#![tactic(auto)]

ghost use Rattle.std.specs.Prelude.{◌≡◌, ◌+◌, ◌-◌, ◌%◌, ◌<◌, ◌≤◌, length};

use std::fmt;
use std::fmt::Write;
use vectors::{Compared, Stdout, mixed};

// 1, -1, 0.5, 6, 0.1, a third, 12.75, the smallest and the largest normal number, the smallest
// subnormal one, 0, infinity and a NaN.
const SCALES: [u32; 13] = [
    0x3f800000, 0xbf800000, 0x3f000000, 0x40c00000, 0x3dcccccd, 0x3eaaaaab, 0x414c0000, 0x00800000,
    0x7f7fffff, 0x00000001, 0x00000000, 0x7f800000, 0x7fc00000,
];

// Zeros, subnormal and extreme numbers, infinities, what lies at 0.5, 127, 127.5 and 128, a NaN.
const EDGES: [u32; 20] = [
    0x00000000, 0x80000000, 0x00000001, 0x80000001, 0x007fffff, 0x00800000, 0x80800000, 0x7f7fffff,
    0xff7fffff, 0x7f800000, 0xff800000, 0x3effffff, 0x3f000000, 0xbf000000, 0x42fe0000, 0x42feffff,
    0x42ff0000, 0xc2ff0000, 0x43000000, 0x7fc00000,
];

// Of the NaNs one: std's from_bits takes no bits of a NaN.
#[tactic(auto, using(std::proofs::lemmas::Float::not_nan_f32_bits))]
fn float(bits: u32) -> f32 {
    if bits % 2147483648 <= 2139095040 {
        return f32::from_bits(bits);
    }
    f32::NAN
}

// Two floats on either side of every half from 0.5 to 130.5, with both signs, over the scale.
fn near(scale: f32, case: u32) -> f32
    requires { case < 1310 }
{
    let h = (case / 10 * 2 + 1) as u16;
    let x = f32::from(h) * 0.5 / scale;
    if x.is_nan() {
        return x;
    }
    let size = x.to_bits() % 2147483648 + case % 5;
    if size < 2 {
        return float(case / 5 % 2 * 2147483648);
    }
    float((size - 2) % 2147483648 + case / 5 % 2 * 2147483648)
}

fn input(scale: f32, case: u32) -> f32
    requires { case < 1530 }
{
    if case < 1310 {
        return near(scale, case);
    }
    if case < 1410 {
        return float(mixed(case));
    }
    if case < 1510 {
        return float(1040187392 + mixed(case) % 92274688);
    }
    float(EDGES[(case - 1510) as usize])
}

fn fill(inputs: &mut [f32], scale: f32)
    requires { length inputs.old ≤ 1530 }
{
    for (i, x) in inputs.iter_mut().enumerate() {
        *x = input(scale, i as u32);
    }
}

// The soft value that a byte of the answers stands for.
fn value(answer: u8) -> i8 {
    let size = (answer % 128) as i8;
    if answer < 128 { size } else { -size }
}

// One scale's soft values, each compared with the answer there: so many of them are counted, and so many at most differ. Where one does, the
// scale's first is shown, behind the last comparison.
fn replay(scale: f32, answers: &[u8; 1530], compared: &mut Compared) -> fmt::Result
    ensures all { compared.new.all ≡ (compared.old.all + 1530) % 18446744073709551616 }
    ensures differ { (compared.new.differ + 18446744073709551616 - compared.old.differ) % 18446744073709551616 ≤ 1530 }
{
    let mut inputs = [0.0f32; 1530];
    let mut out = [0i8; 1530];
    fill(&mut inputs, scale);
    let _ = quantise::quantise(&inputs, scale, &mut out);
    let mut own = Compared::default();
    let mut first = None;
    for (out, answer) in out.iter().zip(answers) {
        let case = own.all;
        if own.count(*out == value(*answer)) {
            first = Some(case);
        }
    }
    compared.all = compared.all.wrapping_add(own.all);
    compared.differ = compared.differ.wrapping_add(own.differ);
    match first {
        Some(case) => writeln!(Stdout, "first at case {case}"),
        None => Ok(()),
    }
}

// Every scale whose answers are there.
fn replay_all(answers: &[u8]) -> fmt::Result {
    let mut to = Stdout;
    let mut compared = Compared::default();
    let (blocks, _) = answers.as_chunks::<1530>();
    for (&scale, answers) in SCALES.iter().zip(blocks) {
        replay(float(scale), answers, &mut compared)?;
    }
    let Compared { all, differ } = compared;
    writeln!(to, "{all} compared, {differ} differ")
}

// Scale 1: 0.5 to 1, -2.5 to -3, 200 to 127.
fn figures() -> fmt::Result {
    let mut to = Stdout;
    let mut out = [0i8; 3];
    let _ = quantise::quantise(&[0.5, -2.5, 200.0], 1.0, &mut out);
    if out == [1, -3, 127] {
        writeln!(to, "3 figures agree")
    } else {
        writeln!(to, "a figure differs")
    }
}

fn show_all(answers: &[u8]) -> fmt::Result {
    replay_all(answers)?;
    figures()
}

// A write that fails ends the program: what it wrote shows it.
fn main() {
    let mut answers = io::large_buffer();
    let n = io::read_full(0, &mut answers);
    let _ = show_all(&answers[..n]);
}
