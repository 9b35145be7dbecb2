// The lists of all checks in one lent slice: row_start (P + 1 numbers), then rows (E bits).
// They are filled from the lists' ends: each start is first its list's end and goes down by one for each bit.
#![tactic(auto)]

ghost use Rattle.std.specs.Prelude.{◌≡◌, cond, suc, ◌+◌, ◌*◌, ◌%◌, ◌<◌, ◌≤◌, eqb, length, get_or};
ghost use Rattle.ldpc_shape.specs.Shape.{rows_of};
ghost use Rattle.ldpc_edges.specs.Code.{met, of_bits, of_rows, stairs, edge_lists};
ghost use Rattle.ldpc_edges.specs.Count.{to_bits, to_stairs};
ghost use Rattle.ldpc_lists.specs.Build.{as_lists, Ready, put, put_all, RoomForEdges};
ghost use Rattle.ldpc_lists.specs.Ends.{Few, EndsSet, ending};

use ldpc_rows::{Row, Rows};
use ldpc_shape::{GROUP_U32, MAX_Q, Sizes, Table};

// Bit m before what check p has so far. (Two parameters: for such a pair, `out` and `records` of decoder_words, a structure proves, but each contract then says
// besides that both references are kept. And no ghost field could say the room: the edges that must still fit differ from function to function, and shrink.)
#[tactic(auto, unfolding(crate::specs::Build::put))]
fn put_one(starts: &mut [u32], rows: &mut [u32], p: usize, m: u32)
    requires { Ready p (as_lists starts.old rows.old) }
    ensures { as_lists starts.new rows.new ≡ put p m (as_lists starts.old rows.old) }
{
    let s = starts[p] - 1;
    starts[p] = s;
    rows[s as usize] = m;
}

// How many checks a code has, and its q. (Written out at its two places: a conversion's clause would have to be shown at both.)
#[derive(Clone, Copy)]
struct Checks {
    count: u32,
    q: u32,
    ghost some: { 0 < count },
    ghost within: { count ≤ 44880 },
    ghost turns: { 0 < q },
    ghost few: { q ≤ 120 },
}

impl Checks {
    // Each start at the end of its check's list. (By number: i names the residue too.)
    fn ends(self, starts: &mut [u32], counts: &[u32; MAX_Q])
        requires { (self.count < length starts.old) × Few counts.now self.q }
        ensures { EndsSet counts.now self.q starts.new self.count × (get_or starts.new self.count 0 ≡ ending counts.now self.q self.count) }
    {
        let (count, q) = (self.count as usize, self.q as usize);
        let mut e = 0;
        for i in 0..count {
            e += counts[i % q] + ldpc_shape::parity_bits(i);
            starts[i] = e;
        }
        starts[count] = e;
    }

    // The check that an address meets, s further on.
    fn meets(self, a: u16, s: u32) -> usize
        requires { s ≤ 44880 }
        ensures { result ≡ (a + s) % self.count }
    {
        ((u32::from(a) + s) % self.count) as usize
    }

    // The edges of bit m, the j-th of its row.
    fn put_met(self, starts: &mut [u32], rows: &mut [u32], row: &[u16], m: u32, j: u32)
        requires { (j < 374) × RoomForEdges self.count (met self.count self.q m j row.now) (as_lists starts.old rows.old) }
        ensures { as_lists starts.new rows.new ≡ put_all (met self.count self.q m j row.now) (as_lists starts.old rows.old) }
    {
        let s = j * self.q;
        for &a in row.iter().rev() {
            put_one(starts, rows, self.meets(a, s), m);
        }
    }

    // The edges of a row.
    fn put_row(self, starts: &mut [u32], rows: &mut [u32], row: Row<'_>)
        requires { RoomForEdges self.count (of_bits self.count self.q 374 row.first 0 row.addrs.now) (as_lists starts.old rows.old) }
        ensures { as_lists starts.new rows.new
            ≡ put_all (of_bits self.count self.q 374 row.entry.first 0 row.entry.addrs.now) (as_lists starts.old rows.old) }
    {
        for j in (0..GROUP_U32).rev() {
            self.put_met(starts, rows, row.addrs, row.first + j, j);
        }
    }
}

// The edges of all rows.
fn put_rows(starts: &mut [u32], rows: &mut [u32], of: Table<'_>)
    requires { RoomForEdges of.sizes.p (of_rows of.sizes.p of.sizes.q 0 (rows_of of.lens.now of.addrs.now)) (as_lists starts.old rows.old) }
    ensures { as_lists starts.new rows.new
        ≡ put_all (of_rows of.entry.sizes.p of.entry.sizes.q 0 (rows_of of.entry.lens.now of.entry.addrs.now)) (as_lists starts.old rows.old) }
{
    let checks = Checks {
        count: of.sizes.p as u32,
        q: of.sizes.q as u32,
    };
    for row in Rows::from(of).rev() {
        checks.put_row(starts, rows, row);
    }
}

// The parity bits of check c, the later first. (Of k and c only this is asked, that their sum is at most n's limit: no structure has just the two.)
fn put_stair(starts: &mut [u32], rows: &mut [u32], k: u32, c: usize)
    requires { (k + c ≤ 44880) × RoomForEdges (suc c) (to_bits c (stairs k c)) (as_lists starts.old rows.old) }
    ensures { as_lists starts.new rows.new ≡ put_all (to_bits c (stairs k c)) (as_lists starts.old rows.old) }
{
    let v = k + c as u32;
    put_one(starts, rows, c, v);
    if c == 0 {
        return;
    }
    put_one(starts, rows, c, v - 1);
}

// The parity bits of all checks.
fn put_stairs(starts: &mut [u32], rows: &mut [u32], k: u32, checks: usize)
    requires { (k + checks ≤ 44880) × RoomForEdges checks (to_stairs k 0 checks) (as_lists starts.old rows.old) }
    ensures { as_lists starts.new rows.new ≡ put_all (to_stairs k 0 checks) (as_lists starts.old rows.old) }
{
    for c in (0..checks).rev() {
        put_stair(starts, rows, k, c);
    }
}

// The lists of all checks of a code, in a slice of E + P + 1 numbers.
pub fn build(of: Table<'_>, lists: &mut [u32])
    requires { length lists.old ≡ suc of.sizes.p + of.sizes.e }
    ensures { lists.new ≡ edge_lists of.entry.sizes.n of.entry.lens.now of.entry.addrs.now }
{
    let Sizes { k, p, q, .. } = of.sizes;
    let checks = Checks {
        count: p as u32,
        q: q as u32,
    };
    let counts = ldpc_shape::counts(of.addrs, q as u32);
    let (starts, rows) = lists.split_at_mut(p + 1);
    checks.ends(starts, &counts);
    put_stairs(starts, rows, k as u32, p);
    put_rows(starts, rows, of);
}
