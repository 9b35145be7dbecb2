// One soft word out of up to eight: equally long soft words, one after another in one slice, are summed place by place and clamped once at the end.
#![tactic(auto)]

ghost use Rattle.std.specs.Prelude.{◌≡◌, ℕ, ◌+◌, ◌*◌, ◌/◌, ◌<◌, ◌≤◌, ◌+ℤ◌, pos, nat_abs, length, get_or, IfOk};
ghost use Rattle.refusal.specs.Number.{number_of, answer};
ghost use Rattle.combine.specs.Combined.{words_of, sum_at, clamped, combined};
ghost use Rattle.combine.specs.Answers.{first, any_other, combine_refusal, output_of};

use refusal::Refusal;

// The soft words to be summed: `count` of n values each.
#[derive(Clone, Copy)]
struct Summands<'a> {
    soft: &'a [i8],
    n: usize,
    count: usize,
    ghost whole: { (count * n ≡ length soft.now) × (count ≤ 8) },
}

// Whether a length is not n.
fn any_other(n: u32, lengths: &[u32]) -> bool
    ensures { result ≡ any_other n lengths.now }
{
    lengths.iter().any(|&l| l != n)
}

impl<'a> Summands<'a> {
    // The words that have these lengths: 1 to 8 words of one length, which add up to the slice, and one of which fits the room.
    #[tactic(auto, using(crate::specs::AnswersLaws::none, crate::specs::AnswersLaws::many, crate::specs::AnswersLaws::differ, crate::specs::AnswersLaws::other_size, crate::specs::AnswersLaws::short, crate::specs::AnswersLaws::fair))]
    fn accept(lengths: &[u32], soft: &'a [i8], room: usize) -> Result<Summands<'a>, Refusal>
        ensures number { number_of result ≡ combine_refusal lengths.now (length soft.now) room }
        ensures summands { IfOk result (λ s. (s.soft.now ≡ soft.now)
            × (s.n ≡ first lengths.now)
            × (s.count ≡ length lengths.now)
            × (s.n ≤ room)) }
    {
        let count = lengths.len();
        if count == 0 || 8 < count {
            return Err(Refusal::Lengths);
        }
        let n = lengths[0];
        if any_other(n, lengths) {
            return Err(Refusal::Lengths);
        }
        let n = n as usize;
        if count * n != soft.len() {
            return Err(Refusal::Lengths);
        }
        if room < n {
            return Err(Refusal::TooShort);
        }
        Ok(Summands { soft, n, count })
    }

    // The sum at one place.
    fn sum(self, i: usize) -> i16
        requires { i < self.n }
        ensures { result ≡ sum_at (words_of self.entry.n self.entry.count self.entry.soft.now) i }
    {
        let mut s: i16 = 0;
        for k in 0..self.count {
            s = plus(s, self.soft[k * self.n + i]);
        }
        s
    }

    // The sums at the sixteen places from `at` on.
    fn sums(self, at: usize) -> [i16; 16]
        requires { at + 16 ≤ self.n }
        ensures { (k : ℕ) → k < 16 → get_or result k (pos 0) ≡ sum_at (words_of self.entry.n self.entry.count self.entry.soft.now) (at + k) }
    {
        let mut s = [0; 16];
        for word in 0..self.count {
            let base = word * self.n + at;
            let next = added(s, *self.soft[base..base + 16].first_chunk().unwrap());
            s = next;
        }
        s
    }

    // The whole sixteens of places.
    fn write_sixteens(self, out: &mut [i8])
        requires { length out.old ≡ self.n }
        ensures length { length out.new ≡ self.entry.n }
        ensures values { (i : ℕ) → i < self.entry.n / 16 * 16 → get_or out.new i (pos 0) ≡ clamped (sum_at (words_of self.entry.n self.entry.count self.entry.soft.now) i) }
    {
        for c in 0..self.n / 16 {
            let at = 16 * c;
            out[at..at + 16].copy_from_slice(&clamp_all(self.sums(at)));
        }
    }

    // Every place.
    fn write(self, out: &mut [i8])
        requires { length out.old ≡ self.n }
        ensures { out.new ≡ combined self.entry.n (words_of self.entry.n self.entry.count self.entry.soft.now) }
    {
        self.write_sixteens(out);
        for i in self.n / 16 * 16..self.n {
            out[i] = clamp(self.sum(i));
        }
    }
}

// One value more: sums of eight fit 16 bits.
fn plus(s: i16, x: i8) -> i16
    requires { nat_abs s ≤ 896 }
    ensures sum { result ≡ s +ℤ x }
    ensures size { nat_abs result ≤ nat_abs s + 128 }
{
    s + i16::from(x)
}

// One word's sixteen values more.
fn added(mut s: [i16; 16], x: [i8; 16]) -> [i16; 16]
    requires { (k : ℕ) → k < 16 → nat_abs (get_or s k (pos 0)) ≤ 896 }
    ensures sums { (k : ℕ) → k < 16 → get_or result k (pos 0) ≡ get_or s k (pos 0) +ℤ get_or x k (pos 0) }
    ensures sizes { (k : ℕ) → k < 16 → nat_abs (get_or result k (pos 0)) ≤ nat_abs (get_or s k (pos 0)) + 128 }
{
    for i in 0..16 {
        s[i] = plus(s[i], x[i]);
    }
    s
}

fn clamp(s: i16) -> i8
    ensures { result ≡ clamped s }
{
    s.clamp(-127, 127) as i8
}

fn clamp_all(s: [i16; 16]) -> [i8; 16]
    ensures { (k : ℕ) → k < 16 → get_or result k (pos 0) ≡ clamped (get_or s k (pos 0)) }
{
    let mut x = [0; 16];
    for i in 0..16 {
        x[i] = clamp(s[i]);
    }
    x
}

// The combined word of the soft words that `soft` has one after another, into the front of `out`; the rest of `out` stays. `lengths` has the length of each.
pub fn combine(lengths: &[u32], soft: &[i8], out: &mut [i8]) -> Result<(), Refusal>
    ensures answer { result ≡ answer (combine_refusal lengths.now (length soft.now) (length out.old)) tt }
    ensures output { out.new ≡ output_of lengths.now soft.now out.old }
    ensures number { number_of result ≡ combine_refusal lengths.now (length soft.now) (length out.old) }
{
    let summands = Summands::accept(lengths, soft, out.len())?;
    summands.write(&mut out[..summands.n]);
    Ok(())
}
