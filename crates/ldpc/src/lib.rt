// Quasi-cyclic LDPC codes of an address table (ARIB STD-B44 v2.1 section 3.4 (2)): the entry points.
// A code is lent as n, the length of each row, and the rows' addresses one after the other: three parameters, as the C interface has them; below they are a `Table`.
// None of these has a requires.
#![tactic(auto)]

ghost use Rattle.std.specs.Prelude.{◌≡◌, IfOk, length};
ghost use Rattle.refusal.specs.Number.{number_of};
ghost use Rattle.ldpc_shape.specs.Shape.{k_of, sizes_of, code_refusal};
ghost use Rattle.ldpc_shape.specs.Accepted.{Bounded};
ghost use Rattle.ldpc.specs.Answers.{or_else, other_of, new_refusal, check_refusal, parity_refusal, encode_refusal, weight_refusal, new_answer, new_into, check_answer, check_into, parity_answer, parity_into, encode_answer, encode_into, weight_answer};

use ldpc_shape::{Sizes, Table};
use refusal::Refusal;

// The code's numbers; `lists` gets row_start (P + 1 numbers) and then rows (E bits).
pub fn new(n: u32, lens: &[u32], addrs: &[u16], lists: &mut [u32]) -> Result<Sizes, Refusal>
    ensures answer { (result ≡ new_answer n lens.now addrs.now (length lists.old))
        × (lists.new ≡ new_into n lens.now addrs.now lists.old) }
    ensures bounded { IfOk result Bounded }
    ensures number { number_of result ≡ new_refusal n lens.now addrs.now (length lists.old) }
{
    let of = Table::accept(n, lens, addrs)?;
    let Sizes { p, e, .. } = of.sizes;
    let (front, _) = lists
        .split_at_mut_checked(p + 1 + e)
        .ok_or(Refusal::TooShort)?;
    ldpc_lists::build(of, front);
    Ok(of.sizes)
}

// The bits of check c in order, in front of `out`, and how many they are.
pub fn check(n: u32, lens: &[u32], addrs: &[u16], c: u32, out: &mut [u32]) -> Result<u32, Refusal>
    ensures answer { (result ≡ check_answer n lens.now addrs.now c (length out.old))
        × (out.new ≡ check_into n lens.now addrs.now c out.old) }
    ensures number { number_of result ≡ check_refusal n lens.now addrs.now c (length out.old) }
{
    let of = Table::accept(n, lens, addrs)?;
    if of.sizes.p <= c as usize {
        return Err(Refusal::Size);
    }
    let degree = ldpc_check::degree_of(of, c);
    let (front, _) = out.split_at_mut_checked(degree).ok_or(Refusal::TooShort)?;
    Ok(ldpc_check::check_of(of, c, front) as u32)
}

// The table of a code that has as many information bits as there are bytes.
fn informed<'a>(
    n: u32,
    lens: &'a [u32],
    addrs: &'a [u16],
    info: &[u8],
) -> Result<Table<'a>, Refusal>
    ensures number { number_of result
        ≡ or_else (code_refusal n lens.now addrs.now) (other_of (length info.now) (k_of lens.now)) }
    ensures table { IfOk result (λ t. (t.sizes ≡ sizes_of n lens.now addrs.now)
        × (t.lens.now ≡ lens.now)
        × (t.addrs.now ≡ addrs.now)
        × (length info.now ≡ t.sizes.k)) }
{
    let of = Table::accept(n, lens, addrs)?;
    if info.len() != of.sizes.k {
        return Err(Refusal::Size);
    }
    Ok(of)
}

// The P parity bits of the information, in front of `out`. (This and the next stay two: what they share is `informed`, and the rest is a length and
// a call, which would be two parameters.)
pub fn parity(
    n: u32,
    lens: &[u32],
    addrs: &[u16],
    info: &[u8],
    out: &mut [u8],
) -> Result<(), Refusal>
    ensures answer { (result ≡ parity_answer n lens.now addrs.now (length info.now) (length out.old))
        × (out.new ≡ parity_into n lens.now addrs.now info.now out.old) }
    ensures number { number_of result ≡ parity_refusal n lens.now addrs.now (length info.now) (length out.old) }
{
    let of = informed(n, lens, addrs, info)?;
    let (front, _) = out
        .split_at_mut_checked(of.sizes.p)
        .ok_or(Refusal::TooShort)?;
    ldpc_encode::parity_of(of, info, front);
    Ok(())
}

// The information bytes and its parity bits, in front of `out`.
pub fn encode(
    n: u32,
    lens: &[u32],
    addrs: &[u16],
    info: &[u8],
    out: &mut [u8],
) -> Result<(), Refusal>
    ensures answer { (result ≡ encode_answer n lens.now addrs.now (length info.now) (length out.old))
        × (out.new ≡ encode_into n lens.now addrs.now info.now out.old) }
    ensures number { number_of result ≡ encode_refusal n lens.now addrs.now (length info.now) (length out.old) }
{
    let of = informed(n, lens, addrs, info)?;
    let (front, _) = out
        .split_at_mut_checked(of.sizes.n)
        .ok_or(Refusal::TooShort)?;
    ldpc_encode::encode_of(of, info, front);
    Ok(())
}

// The number of unsatisfied checks of the hard word.
pub fn syndrome_weight(n: u32, lens: &[u32], addrs: &[u16], bits: &[u8]) -> Result<u32, Refusal>
    ensures answer { result ≡ weight_answer n lens.now addrs.now bits.now }
    ensures number { number_of result ≡ weight_refusal n lens.now addrs.now (length bits.now) }
{
    let of = Table::accept(n, lens, addrs)?;
    if bits.len() != of.sizes.n {
        return Err(Refusal::Size);
    }
    Ok(ldpc_encode::weight_of(of, bits))
}
