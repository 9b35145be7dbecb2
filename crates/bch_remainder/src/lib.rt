// Words of the BCH code and their remainders by the generator, sixteen bits at a time.
#![tactic(auto)]

ghost use Rattle.std.specs.Prelude.{◌≡◌, ◌⊎◌, List, [], ◌++◌, ℕ, ◌≤◌, length, drop};
ghost use Rattle.std.specs.List.{concat};
ghost use Rattle.bch_table.specs.Step.{value_of};
ghost use Rattle.bch_remainder.specs.Word.{number, parity_of, remainder_of, bits_of, parity_bits};

use bch_table::Reg;

// The low bit of each byte of a u64.
const LOW_BITS: u64 = 0x0101010101010101;

// Every ninth digit.
const NINTHS: u64 = 0x8040201008040201;

// The low bits of eight bytes as a number, the highest power first. Byte i has its low bit at digit 8 i, and the factor's digit 63 - 9 i takes it to 63 - i;
// no two digits of the product meet.
fn pack_eight(bytes: [u8; 8]) -> u64
    ensures { result ≡ number bytes }
{
    (u64::from_le_bytes(bytes) & LOW_BITS).wrapping_mul(NINTHS) >> 56
}

// The same of up to eight such eights.
fn pack_eights(eights: &[[u8; 8]]) -> u64
    requires { length eights.now ≤ 8 }
    ensures { result ≡ number (concat eights.now) }
{
    let mut v = 0;
    for eight in eights {
        v = v * 256 + pack_eight(*eight);
    }
    v
}

// The low bits of bytes as a number, the highest power first: eight at a time, and then those that are left.
fn pack(bits: &[u8]) -> u64
    requires { length bits.now ≤ 64 }
    ensures { result ≡ number bits.now }
{
    let (eights, rest) = bits.as_chunks();
    let mut v = pack_eights(eights);
    for bit in rest {
        v = v * 2 + u64::from(*bit & 1);
    }
    v
}

// The parity of the bits so far and of these: sixteen, or fewer if none came before.
fn more(r: Reg, bits: &[u8]) -> Reg
    requires { length bits.now ≤ 16 }
    ensures { (m : List ℕ) → (length bits.now ≡ 16) ⊎ (m ≡ []) → value_of r ≡ parity_of m → value_of result ≡ parity_of (m ++ bits.now) }
{
    r.step(pack(bits) as u16)
}

// The remainder of x^192 m(x). The first length % 16 bits make one short step, then each sixteen a step.
pub fn parity_register(message: &[u8]) -> Reg
    ensures { value_of result ≡ parity_of message.now }
{
    let (short, sixteens) = message.split_at(message.len() % 16);
    let mut r = more(Reg::ZERO, short);
    for bits in sixteens.chunks_exact(16) {
        r = more(r, bits);
    }
    r
}

// The remainder of a word: that of x^192 times the part before the last 192 bits, and those.
pub fn remainder(word: &[u8]) -> Reg
    requires { 192 ≤ length word.now }
    ensures { value_of result ≡ remainder_of word.now }
{
    let (message, parity) = word.split_at(word.len() - 192);
    parity_register(message).add(Reg {
        hi: pack(&parity[..64]),
        mid: pack(&parity[64..128]),
        lo: pack(&parity[128..]),
    })
}

// The bits of a byte, the highest first. The product has the byte eight times, nine digits apart, so digit 8 i + 7 is bit 7 - i of the byte.
fn spread(byte: u8) -> [u8; 8]
    ensures { result ≡ bits_of 8 byte }
{
    ((u64::from(byte).wrapping_mul(NINTHS) >> 7) & LOW_BITS).to_le_bytes()
}

// Sixty-four bits, the highest first, eight at a time.
fn write_word(v: u64, out: &mut [u8])
    requires { length out.old ≡ 64 }
    ensures { out.new ≡ bits_of 64 v }
{
    for i in 0..8 {
        let byte = (v >> (56 - 8 * i)) % 256;
        out[8 * i..8 * i + 8].copy_from_slice(&spread(byte as u8));
    }
}

// The 192 parity bytes of a remainder.
pub fn write_parity(r: Reg, out: &mut [u8])
    requires { 192 ≤ length out.old }
    ensures { out.new ≡ parity_bits (value_of r) ++ drop 192 out.old }
{
    write_word(r.hi, &mut out[..64]);
    write_word(r.mid, &mut out[64..128]);
    write_word(r.lo, &mut out[128..192]);
}
