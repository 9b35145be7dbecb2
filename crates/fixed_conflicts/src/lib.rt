// Where the edges of a row stand in the checks of a layer, and which rows' variables can have several edges in a run.
#![tactic(auto)]

ghost use Rattle.std.specs.Prelude.{◌≡◌, ℕ, ◌<◌, ◌≤◌, ◌+◌, ◌*◌, get_or, length};
ghost use Rattle.fixed_conflicts.specs.Table.{spans_length, Flagged, flags_of, any_of};
ghost use Rattle.fixed_conflicts.specs.Conflicts.{Spanned};
ghost use Rattle.fixed_conflicts.specs.Marks.{NextRow};

use ldpc_rows::Rows;
use ldpc_shape::{MAX_Q, Table};

// How many numbers the table has: 120 for each of 121 rows.
pub const SPANS: usize = MAX_Q * (MAX_Q + 1);

// The table: where each row's edges begin in the list of each check of each layer. The parity bits are the row behind the last.
#[derive(Clone, Copy)]
pub struct RowSpans<'a> {
    pub table: &'a [u8],
    pub ghost whole: { length table.now ≡ spans_length },
}

impl RowSpans<'_> {
    // Where row g's edges begin in the checks of layer l.
    pub fn span(self, g: usize, l: usize) -> usize
        requires { (g ≤ 120) × (l < 120) }
        ensures { (result ≡ get_or self.entry.table.now (g * 120 + l) 0) × (result ≤ 255) }
    {
        usize::from(self.table[g * MAX_Q + l])
    }

    // The rows of layer l whose variables can have several edges in a run, if there are any: those with two edges or more in a check; and the parity bits if q = 1.
    // (`any` goes along, and no `contains` behind the loop: so the loop's invariant says already that no flag is set, or which one.)
    pub fn shared(self, rows: usize, q: usize, l: usize) -> Option<[bool; MAX_Q]>
        requires { (rows ≤ 119) × (l < 120) }
        ensures { Flagged self.entry.table.now rows q l rows (flags_of result) (any_of result) }
    {
        let mut flags = [false; MAX_Q];
        let mut any = q == 1;
        flags[rows] = any;
        for g in 0..rows {
            let from = self.span(g, l);
            let to = self.span(g + 1, l);
            let many = from + 1 < to;
            flags[g] = many;
            any |= many;
        }
        if any { Some(flags) } else { None }
    }
}

// The next row's edges begin where those of row g end: one for each of its addresses that is l modulo q. (Of the counts the first q: `ldpc_shape::counts` gives
// the most that there can be, as there is no heap.)
fn advance(table: &mut [u8], counts: &[u32; MAX_Q], g: usize, q: usize)
    requires sizes { ((g + 2) * 120 ≤ length table.old) × (q ≤ 120) }
    requires fits { (l : ℕ) → l < q → get_or table.old (g * 120 + l) 0 + get_or counts.now l 0 ≤ 255 }
    ensures { NextRow table.old counts.now g q table.new }
{
    for l in 0..q {
        let from = u32::from(table[g * MAX_Q + l]);
        table[(g + 1) * MAX_Q + l] = (from + counts[l]) as u8;
    }
}

// Where the rows of an accepted code begin in the checks of each layer.
pub fn spans(of: Table<'_>, table: &mut [u8])
    requires { (length table.old ≡ spans_length) × ((l : ℕ) → l < 120 → get_or table.old l 0 ≡ 0) }
    ensures { Spanned of.entry.sizes.n of.entry.lens.now of.entry.addrs.now table.new }
{
    let Table { sizes, lens, addrs } = of;
    let q = sizes.q as u32;
    for (g, row) in Rows::from(of).enumerate() {
        let counts = ldpc_shape::counts(row.addrs, q);
        advance(table, &counts, g, sizes.q);
    }
    let two = [2; MAX_Q];
    advance(table, &two, lens.len(), sizes.q);
}
