// Parity, encoded word and syndrome weight of an accepted code.
// The checks are taken by their residue modulo q, 374 at a time: an address adds its row's 374 bits, turned, to those of its residue.
#![tactic(auto)]

ghost use Rattle.std.specs.Prelude.{◌≡◌, ◌++◌, ℕ, ◌+◌, ◌*◌, ◌/◌, ◌%◌, ◌<◌, ◌≤◌, length, drop, get_or};
ghost use Rattle.laws.specs.Modulo.{sum_to};
ghost use Rattle.ldpc_edges.specs.Code.{sums, parity, encode, weight};
ghost use Rattle.ldpc_encode.specs.Sums.{xors, turned_bit, row_bit, info_bit, AddedToSums, Scattered, stair_bit, unmet_at};

use ldpc_rows::Rows;
use ldpc_shape::{GROUP, GROUP_U32, Table};

// Each byte of x xored with w's. (By place: of `iter_mut().zip(..)` the library says the length alone, and no element.)
fn xor_into(x: &mut [u8], w: &[u8])
    requires { length x.old ≡ length w.now }
    ensures { x.new ≡ xors x.old w.now }
{
    for i in 0..x.len() {
        x[i] ^= w[i];
    }
}

// A row's 374 bits, turned by s, added to the sums.
fn add_turned(x: &mut [u8; GROUP], w: &[u8], s: usize)
    requires { (length w.now ≡ 374) × (s < 374) }
    ensures { AddedToSums x.old x.new (turned_bit w.now s) }
{
    let r = GROUP - s;
    xor_into(&mut x[s..], &w[..r]);
    xor_into(&mut x[..s], &w[r..]);
}

// By how much an address turns its row's bits. (q as a number, as in `ldpc_shape::residue`.)
fn turn(a: u16, q: u32) -> usize
    requires { 0 < q }
    ensures { (result ≡ a / q % 374) × (result < 374) }
{
    (u32::from(a) / q % GROUP_U32) as usize
}

// The checks that are l modulo q: l, l + q, and so on, 374 of them.
#[derive(Clone, Copy)]
struct Class {
    q: usize,
    l: usize,
    ghost below: { l < q },
    ghost few: { q ≤ 120 },
}

impl Class {
    // The bits of a row for each of its addresses that is of the class.
    fn add_row(self, x: &mut [u8; GROUP], w: &[u8], row: &[u16])
        requires { length w.now ≡ 374 }
        ensures { AddedToSums x.old x.new (row_bit self.q self.l w.now row.now) }
    {
        let q = self.q as u32;
        for &a in row {
            if ldpc_shape::residue(a, q) == self.l {
                add_turned(x, w, turn(a, q));
            }
        }
    }

    // Those of all rows. (Added to what is lent: where an array was answered, and copied twice, parity took 512 thousand instructions; so it takes 495.)
    fn add_rows(self, x: &mut [u8; GROUP], w: &[u8], of: Table<'_>)
        requires { of.sizes.k ≤ length w.now }
        ensures { AddedToSums x.old x.new (info_bit self.q self.l w.now of.entry.lens.now of.entry.addrs.now) }
    {
        for row in Rows::from(of) {
            // A row says where its bits begin: a walk over chunks beside it would have to agree with that.
            let first = row.first as usize;
            self.add_row(x, &w[first..first + GROUP], row.addrs);
        }
    }

    // How many of its checks are odd, with the sums x and the parity bits p.
    fn odd_checks(self, x: &[u8; GROUP], p: &[u8]) -> u32
        requires { length p.now ≡ 374 * self.q }
        ensures { (result ≡ sum_to 374 (unmet_at self.q self.l x.now p.now)) × (result ≤ 374) }
    {
        let Class { q, l } = self;
        let mut s = 0;
        for i in 0..GROUP {
            s += odd(x[i], stair_bit(p, l + i * q));
        }
        s
    }
}

// The low bits of the sums to the checks of a class. (q is divided out here and not passed in: else the compiler makes
// vectors for q 1 alone; without this, parity took 558 thousand instructions where it took 512. By number: q steps from place to place.)
fn scatter(out: &mut [u8], x: &[u8; GROUP], l: usize)
    requires { (length out.old % 374 ≡ 0) × (l < length out.old / 374) × (length out.old ≤ 44880) }
    ensures { Scattered 374 (length out.old / 374) l x.now out.old out.new }
{
    let q = out.len() / GROUP;
    for i in 0..GROUP {
        out[l + i * q] = x[i] % 2;
    }
}

// Each bit xor the one before. (By number: over `iter_mut` the loop is as long, and the must-fail edit `sum_one_late` would fail by its shape, not by a
// fact that no longer holds.)
fn sum_up(p: &mut [u8])
    ensures { p.new ≡ sums 0 p.old }
{
    let mut b = 0;
    for c in 0..p.len() {
        b ^= p[c];
        p[c] = b;
    }
}

// The parity bits of the information.
pub fn parity_of(of: Table<'_>, info: &[u8], out: &mut [u8])
    requires { (length info.now ≡ of.sizes.k) × (length out.old ≡ of.sizes.p) }
    ensures { out.new ≡ parity of.entry.sizes.n of.entry.lens.now of.entry.addrs.now info.now }
{
    for l in 0..of.sizes.q {
        let q = of.sizes.q;
        let class = Class { q, l };
        let mut x = [0; GROUP];
        class.add_rows(&mut x, info, of);
        scatter(out, &x, l);
    }
    sum_up(out);
}

// A copy of w in front. (By number, and a function of its own: so the must-fail edit `masked_copy` is refused by a fact that no longer holds. With
// `copy_from_slice` it would have to bring a loop, which fails by its shape, masked or not.)
fn copy(out: &mut [u8], w: &[u8])
    requires { length w.now ≤ length out.old }
    ensures { out.new ≡ w.now ++ drop (length w.now) out.old }
{
    for i in 0..w.len() {
        out[i] = w[i];
    }
}

// The information, then its parity bits.
pub fn encode_of(of: Table<'_>, info: &[u8], out: &mut [u8])
    requires { (length info.now ≡ of.sizes.k) × (length out.old ≡ of.sizes.n) }
    ensures { out.new ≡ encode of.entry.sizes.n of.entry.lens.now of.entry.addrs.now info.now }
{
    copy(out, info);
    parity_of(of, info, &mut out[info.len()..]);
}

// The parity bits of check c together. (A check's one or two are written out here, and in ldpc_check and ldpc_lists: xored, ascending, descending.)
fn stair_bit(p: &[u8], c: usize) -> u8
    requires { c < length p.now }
    ensures { result % 2 ≡ stair_bit p.now c % 2 }
{
    if c == 0 {
        return p[c];
    }
    p[c - 1] ^ p[c]
}

// 1 if x xor y is odd, else 0.
fn odd(x: u8, y: u8) -> u32
    ensures { (result ≡ (x + y) % 2) × (result ≤ 1) }
{
    u32::from((x ^ y) % 2)
}

// The number of unsatisfied checks of a word.
pub fn weight_of(of: Table<'_>, bits: &[u8]) -> u32
    requires { length bits.now ≡ of.sizes.n }
    ensures { result ≡ weight of.entry.sizes.n of.entry.lens.now of.entry.addrs.now bits.now }
{
    let p = &bits[of.sizes.k..];
    let mut u = 0;
    for l in 0..of.sizes.q {
        let class = Class { q: of.sizes.q, l };
        let mut x = [0; GROUP];
        class.add_rows(&mut x, bits, of);
        u += class.odd_checks(&x, p);
    }
    u
}
