// Prints the lengths of the eleven rates, a line each: r, k, P, q, D; then those of the slot and the frame.
#![tactic(auto)]

use params::{
    BCH_PARITY_BITS, FRAME_SYMBOLS, GROUP, HEADER_BITS, MAIN_PER_MOD_SLOT, MOD_SLOT, N_LDPC, RATES,
    SLOT_UNIT, SLOTS, STUFF_BITS, TMCC_INFO_BITS, TMCC_PER_MOD_SLOT, TMCC_SIGNAL_BITS,
};
use std::fmt;
use std::fmt::Write;
use vectors::Stdout;

fn print_rate(r: u8) -> fmt::Result {
    let k = params::k_ldpc(r);
    let p = params::checks(r);
    let q = params::q(r);
    let d = params::data_bits(r);
    writeln!(Stdout, "{r} {k} {p} {q} {d}")
}

// Stdout has no buffer: each name, each space and each number is a write of its own.
fn print_all() -> fmt::Result {
    let mut to = Stdout;
    for i in 0..RATES.len() {
        print_rate(params::rate(i))?;
    }
    write!(to, "code")?;
    write!(to, " {N_LDPC} {GROUP}")?;
    write!(to, "\nslot")?;
    write!(to, " {HEADER_BITS} {BCH_PARITY_BITS} {STUFF_BITS}")?;
    write!(to, "\nmodulation slot")?;
    write!(to, " {MOD_SLOT} {MAIN_PER_MOD_SLOT} {TMCC_PER_MOD_SLOT}")?;
    write!(to, "\nframe")?;
    write!(
        to,
        " {SLOTS} {SLOT_UNIT} {FRAME_SYMBOLS} {TMCC_SIGNAL_BITS} {TMCC_INFO_BITS}"
    )?;
    writeln!(to)
}

fn main() {
    let _ = print_all();
}
