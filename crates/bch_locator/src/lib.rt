// From the remainder of a BCH word to the places to flip.
#![tactic(auto)]

ghost use Rattle.std.specs.Prelude.{◌≡◌, ℕ, suc, ◌+◌, ◌<◌, ◌≤◌, get_or, length};
ghost use Rattle.algebra.specs.SeriesLaws.{sum};
ghost use Rattle.algebra.specs.Series.{ev};
ghost use Rattle.bch_table.specs.Step.{value_of};
ghost use Rattle.gf16.specs.Field16.{R16, α, gf16};
ghost use Rattle.bch_locator.specs.Element.{to_el, poly};
ghost use Rattle.bch_locator.specs.Lanes.{Products};
ghost use Rattle.bch_locator.specs.Syndromes.{Syndromes, first_part, second_part, Added, Horner, Squared};
ghost use Rattle.bch_locator.specs.Places.{PlacesOf, Reversed};
ghost use Rattle.bch_locator.specs.Register.{total, Mended};

use arrayvec::ArrayVec;
use bch_table::Reg;

// The polynomial x at α: the digits from 16 up go in below.
fn fold(x: u32) -> u16
    requires { x < 2147483648 }
    ensures { to_el result ≡ ev R16 32 x α }
{
    let h = (x >> 16) as u16;
    let l = (x & 65535) as u16;
    let g = h ^ (h >> 4) ^ (h >> 8) ^ (h >> 12) ^ (h >> 13);
    l ^ g ^ (g << 1) ^ (g << 3) ^ (g << 12)
}

// The product: of the polynomials, the highest digit of b first, and that at α.
pub fn mul(a: u16, b: u16) -> u16
    ensures { to_el result ≡ R16.◌⊠◌ (to_el a) (to_el b) }
{
    let mut x = 0;
    for i in (0..16u32).rev() {
        x = (x << 1) ^ (u32::from((b >> i) & 1) * u32::from(a));
    }
    fold(x)
}

// The inverse of a, as a power: 2^16 - 2 = 2 + 4 + .. + 2^15.
pub fn inverse(a: u16) -> u16
    ensures { to_el result ≡ gf16.inv (to_el a) }
{
    let mut x = mul(a, a);
    let mut r = 1;
    for _ in 0..15u32 {
        r = mul(r, x);
        x = mul(x, x);
    }
    r
}

// Each lane of t times that of p, a power of two: times a power of α. (Sixteen lanes, since they fill vectors: twelve have values. By number: with
// more than one operation in its body array `map` is not vectorised, and the digits take 3.2 times as long with it.)
fn times(t: [u16; 16], p: [u16; 16]) -> [u16; 16]
    requires { (i : ℕ) → get_or p i 0 ≤ 4096 }
    ensures { Products result t p }
{
    let mut r = [0; 16];
    for i in 0..16 {
        r[i] = fold(u32::from(t[i]) * u32::from(p[i]));
    }
    r
}

// 2 to the 1, 3, 5, .. 11, and then to the 12; zeros.
const FIRST_POWERS: [u16; 16] = [
    2, 8, 32, 128, 512, 2048, 4096, 4096, 4096, 4096, 4096, 4096, 0, 0, 0, 0,
];

// 2 to what is left of 1, 3, 5, .. 23; zeros.
const SECOND_POWERS: [u16; 16] = [1, 1, 1, 1, 1, 1, 2, 8, 32, 128, 512, 2048, 0, 0, 0, 0];

// b added in each lane. (A loop: by `map`, though its body is one operation, each of a remainder's 192 digits takes 296 instructions more.)
fn add_bit(s: [u16; 16], b: u16) -> [u16; 16]
    ensures { Added result s b }
{
    let mut r = [0; 16];
    for i in 0..16 {
        r[i] = s[i] ^ b;
    }
    r
}

// The 64 digits of w, the highest first, after those of which s is the value: lane i is at α^(2 i + 1).
fn digits(s: [u16; 16], w: u64) -> [u16; 16]
    ensures { Horner result s w }
{
    let mut r = s;
    for k in (0..64u32).rev() {
        let one = times(r, FIRST_POWERS);
        let two = times(one, SECOND_POWERS);
        let next = add_bit(two, ((w >> k) & 1) as u16);
        r = next;
    }
    r
}

// The lanes' values, and between them S_2i = S_i^2.
fn squares(t: [u16; 16]) -> [u16; 24]
    ensures { Squared result t }
{
    let mut s = [0; 24];
    for k in 0..12 {
        s[2 * k] = t[k];
        s[2 * k + 1] = mul(s[k], s[k]);
    }
    s
}

// S1 to S24 of the remainder: the odd ones by Horner's rule, the even ones as squares.
pub fn syndromes(r: Reg) -> [u16; 24]
    ensures { Syndromes result (value_of r) }
{
    let high = digits([0; 16], r.hi);
    let upper = digits(high, r.mid);
    let all = digits(upper, r.lo);
    squares(all)
}

// The sum of c[i] s[k - i] for i up to l.
fn discrepancy(c: &[u16; 13], s: &[u16; 24], k: usize, l: usize) -> u16
    requires { (k < 24) × (l ≤ 12) × (l ≤ k) }
    ensures { to_el result ≡ total c.now s.now k (l + 1) }
{
    let mut d = 0;
    for i in 0..l + 1 {
        d ^= mul(c[i], s[k - i]);
    }
    d
}

// c + q x^m b, in c. (By number, as `discrepancy`: of slices zipped with `iter_mut` a proof knows the length alone.)
fn mend(c: &mut [u16; 13], q: u16, m: usize, b: &[u16; 13])
    ensures { Mended c.new c.old q m b.now }
{
    for i in m..13 {
        c[i] ^= mul(q, b[i - m]);
    }
}

// The sum of the lanes.
fn lane_sum(t: [u16; 16]) -> u16
    ensures { to_el result ≡ sum R16 16 (poly t) }
{
    let mut r = 0;
    for x in t {
        r ^= x;
    }
    r
}

// 2 to the 1, 2, .. 12, and zeros.
const PLACE_POWERS: [u16; 16] = [
    2, 4, 8, 16, 32, 64, 128, 256, 512, 1024, 2048, 4096, 0, 0, 0, 0,
];

// The register 1 + c[1] x + .. + c[len] x^len, its thirteen coefficients with zeros behind. len is no count of them: c[len] may be 0.
#[derive(Clone, Copy)]
pub struct Register {
    pub c: [u16; 13],
    pub len: usize,
    ghost short: { len ≤ 12 },
    ghost first: { poly c 0 ≡ R16.𝟙 },
}

impl Register {
    ghost use Rattle.bch_locator.specs.Shortest.{ShortestOf};

    // Berlekamp-Massey over the 24 syndromes, as far as length 12.
    pub fn shortest(s: [u16; 24]) -> Option<Register>
        ensures { ShortestOf s result }
    {
        let mut c = [0; 13];
        c[0] = 1;
        let mut b = c;
        let mut l = 0;
        let mut m = 1;
        let mut e = 1;
        for k in 0..24 {
            let d = discrepancy(&c, &s, k, l);
            if d == 0 {
                m += 1;
            } else {
                let q = mul(d, inverse(e));
                if l + l <= k {
                    if 12 < k + 1 - l {
                        return None;
                    }
                    let t = c;
                    mend(&mut c, q, m, &b);
                    b = t;
                    l = k + 1 - l;
                    e = d;
                    m = 1;
                } else {
                    mend(&mut c, q, m, &b);
                    m += 1;
                }
            }
        }
        Some(Register { c, len: l })
    }

    // The Chien search: the powers below n, which are those present, at which the register vanishes, ascending.
    pub fn chien(&self, n: usize) -> ArrayVec<usize, 12>
        requires { n ≤ 65535 }
        ensures { PlacesOf result.items self.now.c self.now.len n }
    {
        let n = n as u16;
        if self.len == 1 {
            return self.root(n);
        }
        self.roots(n)
    }

    // The search from power 0 up. Lane i has c[len - 1 - i], times α^(i + 1) for each power passed, so that c[len] and the lanes' sum are the
    // register at α^-p times a power of α. A register has no more roots than its length.
    fn roots(&self, n: u16) -> ArrayVec<usize, 12>
        ensures { PlacesOf result.items self.now.c self.now.len n }
    {
        let last = self.c[self.len];
        let mut t = self.reversed();
        let mut found = ArrayVec::new();
        for p in 0..n {
            if lane_sum(t) == last {
                found.push(usize::from(p));
                if found.len() == self.len {
                    return found;
                }
            }
            let next = times(t, PLACE_POWERS);
            t = next;
        }
        found
    }

    // The search for a register of length 1, 1 + c[1] x: its root is α^-p where c[1] is α^p. A word of 65,535 bits with the wrong one in the middle
    // takes 873,808 instructions with it, and 2,544,971 with `roots` alone.
    fn root(&self, n: u16) -> ArrayVec<usize, 12>
        ensures { PlacesOf result.items self.now.c 1 n }
    {
        let mut found = ArrayVec::new();
        let mut x = 1;
        for p in 0..n {
            if x == self.c[1] {
                found.push(usize::from(p));
                return found;
            }
            x = fold(u32::from(x) * 2);
        }
        found
    }

    // c[len - 1] down to c[0], and zeros. (By number: it says where each goes, which a copy turned round would leave to a law of `reverse`.)
    fn reversed(&self) -> [u16; 16]
        ensures { Reversed result self.now.c self.now.len }
    {
        let mut t = [0; 16];
        for i in 0..self.len {
            t[i] = self.c[self.len - 1 - i];
        }
        t
    }
}
