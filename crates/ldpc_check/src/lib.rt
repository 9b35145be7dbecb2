// The list of one check of an accepted code, from the addresses alone: each address equal to c modulo q joins one bit of its row to check c.
#![tactic(auto)]

ghost use Rattle.std.specs.Prelude.{◌≡◌, ◌++◌, ◌+◌, ◌-◌, ◌*◌, ◌<◌, ◌≤◌, length, take, drop};
ghost use Rattle.ldpc_edges.specs.Code.{stairs, check};
ghost use Rattle.ldpc_edges.specs.Insert.{insert, place};
ghost use Rattle.ldpc_check.specs.Found.{found, all_of};

use ldpc_rows::{Row, Rows};
use ldpc_shape::{GROUP_U32, Table};

// m in its place among the ascending bits before the last place. (As the definition's `insert`, it swaps along. By `position` and `copy_within`, 1 to 13
// bits take 8 to 30 % more instructions, and each call would ask for bits that ascend. With `mem::swap` over the front's `iter_mut` it would be no plainer: the
// bit that is left goes to the last place all the same.)
fn insert_bit(out: &mut [u32], m: u32)
    requires { 0 < length out.old }
    ensures { out.new ≡ insert m (take (length out.old - 1) out.old) }
{
    let n = out.len() - 1;
    let mut v = m;
    for i in 0..n {
        let b = out[i];
        if v < b {
            out[i] = v;
            v = b;
        }
    }
    out[n] = v;
}

// Check c of a code whose P is 374 q.
#[derive(Clone, Copy)]
struct CheckAt {
    q: u32,
    c: u32,
    ghost few: { q ≤ 120 },
    ghost within: { c < 374 * q },
}

impl CheckAt {
    // The bit of its row that an address joins to the check.
    fn bit_of(self, a: u16) -> u32
        ensures { (result ≡ place self.q self.c a) × (result < 374) }
    {
        (self.c / self.q + GROUP_U32 - u32::from(a) / self.q % GROUP_U32) % GROUP_U32
    }

    // The check's bits of a row, ascending, in front; how many: C lends `out`, and there is no heap for a list. So in what follows.
    fn row(self, out: &mut [u32], row: Row<'_>) -> usize
        requires { length (found self.q self.c row.first row.addrs.now) ≤ length out.old }
        ensures { (result ≡ length (found self.q self.c row.entry.first row.entry.addrs.now))
            × (out.new ≡ found self.q self.c row.entry.first row.entry.addrs.now ++ drop result out.old) }
    {
        let l = (self.c % self.q) as usize;
        let mut n = 0;
        for &a in row.addrs.iter().rev() {
            if ldpc_shape::residue(a, self.q) == l {
                n += 1;
                insert_bit(&mut out[..n], row.first + self.bit_of(a));
            }
        }
        n
    }

    // Those of all rows.
    fn rows(self, out: &mut [u32], of: Table<'_>) -> usize
        requires { length (all_of self.q self.c of.lens.now of.addrs.now) ≤ length out.old }
        ensures { (result ≡ length (all_of self.q self.c of.entry.lens.now of.entry.addrs.now))
            × (out.new ≡ all_of self.q self.c of.entry.lens.now of.entry.addrs.now ++ drop result out.old) }
    {
        let mut n = 0;
        for row in Rows::from(of) {
            n += self.row(&mut out[n..], row);
        }
        n
    }
}

// The parity bits of check c in front; how many. (Ascending here: `ldpc_lists::put_stair` puts them from the last, and the encoder xors them.)
fn put_stairs(out: &mut [u32], k: u32, c: u32) -> usize
    requires { (k + c ≤ 44880) × (length (stairs k c) ≤ length out.old) }
    ensures { (result ≡ length (stairs k c)) × (out.new ≡ stairs k c ++ drop result out.old) }
{
    let v = k + c;
    if c == 0 {
        out[0] = v;
        return 1;
    }
    out[0] = v - 1;
    out[1] = v;
    2
}

// How many bits check c has. (Not `filter(..).count()` over the one residue: it would need again the law that `counts` gives.)
pub fn degree_of(of: Table<'_>, c: u32) -> usize
    requires { c < of.sizes.p }
    ensures { result ≡ length (check of.entry.sizes.n of.entry.lens.now of.entry.addrs.now c) }
{
    let q = of.sizes.q as u32;
    let r = ldpc_shape::counts(of.addrs, q);
    let met = r[(c % q) as usize] as usize;
    met + ldpc_shape::parity_bits(c as usize) as usize
}

// The list of check c in front; its length.
pub fn check_of(of: Table<'_>, c: u32, out: &mut [u32]) -> usize
    requires { (c < of.sizes.p) × (length (check of.sizes.n of.lens.now of.addrs.now c) ≤ length out.old) }
    ensures { (result ≡ length (check of.entry.sizes.n of.entry.lens.now of.entry.addrs.now c))
        × (out.new ≡ check of.entry.sizes.n of.entry.lens.now of.entry.addrs.now c ++ drop result out.old) }
{
    let q = of.sizes.q as u32;
    let d = CheckAt { q, c }.rows(out, of);
    d + put_stairs(&mut out[d..], of.sizes.k as u32, c)
}
