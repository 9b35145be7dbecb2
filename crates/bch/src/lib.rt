// The outer code of ISDB-S3: BCH(65,535, 65,343) over GF(2^16), shortened, correcting 12 bits (ARIB STD-B44 3.4 (1), Table 3.4-1).
// One byte a bit, highest power first: the message, then 192 parity bits. Only the low bit of a byte counts.
#![tactic(auto)]

ghost use Rattle.std.specs.Prelude.{◌≡◌, ℕ, ◌+◌, ◌≤◌, ◌<◌, eqb, length, get_or, IfOk};
ghost use Rattle.refusal.specs.Number.{number_of, answer};
ghost use Rattle.bch_table.specs.Step.{value_of};
ghost use Rattle.bch_remainder.specs.Word.{remainder_of};
ghost use Rattle.bch.specs.Places.{flip_all};
ghost use Rattle.bch.specs.Decode.{Located};
ghost use Rattle.bch.specs.Answers.{message_refusal, parity_out, encode_out, Decodes};

use bch_locator::Register;
use bch_table::Reg;
use refusal::Refusal;

// Whether a message has at most so many bits as the code, and what is made of it its room.
#[tactic(auto, using(crate::specs::AnswersLaws::long_message, crate::specs::AnswersLaws::short_output, crate::specs::AnswersLaws::fair_message))]
fn fits(k: usize, need: usize, room: usize) -> Result<(), Refusal>
    ensures number { number_of result ≡ message_refusal k need room }
    ensures room { IfOk result (λ _. need ≤ room) }
{
    if 65343 < k {
        return Err(Refusal::Bch);
    }
    if room < need {
        return Err(Refusal::TooShort);
    }
    Ok(())
}

// The parity of a message: the remainder of x^192 m(x), 192 bytes 0 or 1. (It and `encode` stay two: shared are `fits`, `parity_register` and `write_parity`;
// what differs is the room, and that the message goes in front.)
pub fn parity(message: &[u8], out: &mut [u8]) -> Result<(), Refusal>
    ensures answer { result ≡ answer (message_refusal (length message.now) 192 (length out.old)) tt }
    ensures output { out.new ≡ parity_out message.now out.old }
    ensures number { number_of result ≡ message_refusal (length message.now) 192 (length out.old) }
{
    fits(message.len(), 192, out.len())?;
    bch_remainder::write_parity(bch_remainder::parity_register(message), out);
    Ok(())
}

// The codeword of a message: its bytes, then its parity.
pub fn encode(message: &[u8], out: &mut [u8]) -> Result<(), Refusal>
    ensures answer { result ≡ answer (message_refusal (length message.now) (length message.now + 192) (length out.old)) tt }
    ensures output { out.new ≡ encode_out message.now out.old }
    ensures number { number_of result ≡ message_refusal (length message.now) (length message.now + 192) (length out.old) }
{
    let k = message.len();
    fits(k, k + 192, out.len())?;
    out[..k].copy_from_slice(message);
    bch_remainder::write_parity(bch_remainder::parity_register(message), &mut out[k..]);
    Ok(())
}

// A word is corrected in place: exactly when a codeword of its length lies within 12 bits, and to the only such codeword. How many of its bits
// were changed, or None where there is no such codeword; the word is then as it was, byte for byte.
pub fn decode(word: &mut [u8]) -> Result<Option<u32>, Refusal>
    ensures { Decodes word.old word.new result }
{
    let n = word.len();
    if n < 193 || 65535 < n {
        return Err(Refusal::Bch);
    }
    let r = bch_remainder::remainder(word);
    if r == Reg::ZERO {
        return Ok(Some(0));
    }
    Ok(correct(word, r))
}

// A word that is no codeword, by its remainder: the shortest register's roots are flipped, if they are as many as it is long.
fn correct(word: &mut [u8], r: Reg) -> Option<u32>
    requires { (193 ≤ length word.old) × (length word.old ≤ 65535) × (value_of r ≡ remainder_of word.old) }
    ensures { Located word.old word.new result }
{
    let register = Register::shortest(bch_locator::syndromes(r))?;
    let found = register.chien(word.len());
    if found.len() != register.len {
        return None;
    }
    flip(word, found.as_slice());
    Some(register.len as u32)
}

// The low bits of the positions of these powers turned.
fn flip(word: &mut [u8], powers: &[usize])
    requires { (i : ℕ) → i < length powers.now → get_or powers.now i 0 < length word.old }
    ensures { word.new ≡ flip_all word.old (λ i. get_or powers.now i 0) (length powers.now) }
{
    let n = word.len();
    for &p in powers {
        word[n - 1 - p] ^= 1;
    }
}
