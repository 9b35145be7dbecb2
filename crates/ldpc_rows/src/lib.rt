// The rows of a code's address table, from the front or from the back: each with its first information bit and its addresses.
#![tactic(auto)]

ghost use Rattle.std.specs.Prelude.{◌≡◌, ◌+◌, ◌*◌, ◌≤◌, length};
ghost use Rattle.ldpc_shape.specs.Shape.{total};

use ldpc_shape::Table;

mod iter;

// A row: its first information bit and its addresses.
#[derive(Clone, Copy)]
pub struct Row<'a> {
    pub first: u32,
    pub addrs: &'a [u16],
    ghost within: { first + 374 ≤ 44880 },
}

// The rows that are left: the first bit of the first of them, their lengths, and their addresses one after the other.
#[derive(Clone, Copy)]
pub struct Rows<'a> {
    first: u32,
    lens: &'a [u32],
    addrs: &'a [u16],
    ghost within: { first + 374 * length lens.now ≤ 44880 },
    ghost whole: { total lens.now ≡ length addrs.now },
}

// All rows of a code.
impl<'a> From<Table<'a>> for Rows<'a> {
    ghost from_gives = { λ of rows. (rows.first ≡ 0) × (rows.lens.now ≡ of.lens.now) × (rows.addrs.now ≡ of.addrs.now) };

    fn from(of: Table<'a>) -> Rows<'a> {
        Rows {
            first: 0,
            lens: of.lens,
            addrs: of.addrs,
        }
    }
}
