// A check on the memory's rows.
ghost use Rattle.std.specs.Prelude.{◌≡◌, ◌+◌, ◌<◌, get_or};
ghost use Rattle.iteration.specs.Lists.{rows_in};
ghost use Rattle.lane16.specs.Memory.{CheckRows};

use fixed_code::CodeLists;

// A check: d edges from edge s of the rows, which have all E, of a code of n variables. The memory's rows have stride `lanes`. It copies the code's rows
// and n: with the code inside, the functions on a check would ask for a code's lists where they take any rows.
#[derive(Clone, Copy)]
pub struct Check<'a> {
    pub rows: &'a [u32],
    pub s: usize,
    pub d: usize,
    pub n: usize,
    pub lanes: usize,
    pub ghost in_rows: { CheckRows rows.now s d n lanes },
}

impl<'a> Check<'a> {
    // Check c of the code.
    pub fn of(code: CodeLists<'a>, lanes: usize, c: usize) -> Check<'a>
        requires { (c < code.p) × (0 < lanes) }
        ensures rows { result.rows.now ≡ rows_in code.entry.p code.entry.lists.now }
        ensures edges { (result.s ≡ get_or code.entry.lists.now c 0) × (result.s + result.d ≡ get_or code.entry.lists.now (c + 1) 0) }
        ensures sizes { (result.n ≡ code.entry.n) × (result.lanes ≡ lanes) }
    {
        Check {
            rows: code.rows,
            s: code.start(c),
            d: code.degree(c),
            n: code.n,
            lanes,
        }
    }
}
