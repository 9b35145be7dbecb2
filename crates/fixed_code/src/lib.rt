// A code's lists as the iteration reads them, from one lent slice: row_start (P + 1 numbers), then rows (E bits).
#![tactic(auto)]

ghost use Rattle.std.specs.Prelude.{◌≡◌, ◌+◌, ◌<◌, get_or, length};
ghost use Rattle.iteration.specs.Lists.{Lists, var, rows_in};

// The lists of a code of n variables and p checks, and the rows, their second part: worked out at each check, the rows' place takes 4 to 6 instructions
// more, 1.2 % of a check in one lane.
#[derive(Clone, Copy)]
pub struct CodeLists<'a> {
    pub lists: &'a [u32],
    pub rows: &'a [u32],
    pub n: usize,
    pub p: usize,
    pub ghost right: { Lists n p lists.now },
    pub ghost second: { rows.now ≡ rows_in p lists.now },
}

impl<'a> CodeLists<'a> {
    pub fn new(lists: &'a [u32], n: usize, p: usize) -> CodeLists<'a>
        requires { Lists n p lists.now }
        ensures lists { result.lists.now ≡ lists.now }
        ensures sizes { (result.n ≡ n) × (result.p ≡ p) }
    {
        CodeLists {
            lists,
            rows: &lists[p + 1..],
            n,
            p,
        }
    }

    // Where check c's edges begin, and at c = p where the last check's end.
    pub fn start(self, c: usize) -> usize
        requires { c < length self.lists.now }
        ensures { result ≡ get_or self.entry.lists.now c 0 }
    {
        self.lists[c] as usize
    }

    // How many edges check c has.
    pub fn degree(self, c: usize) -> usize
        requires { c < self.p }
        ensures { get_or self.entry.lists.now c 0 + result ≡ get_or self.entry.lists.now (c + 1) 0 }
    {
        self.start(c + 1) - self.start(c)
    }
}

// Where check c's edges begin, in lists of which nothing more is known: what `CodeLists::start` says of a code's.
pub fn start(lists: &[u32], c: usize) -> usize
    requires { c < length lists.now }
    ensures { result ≡ get_or lists.now c 0 }
{
    lists[c] as usize
}

// The variable of edge e.
pub fn variable(rows: &[u32], e: usize) -> usize
    requires { e < length rows.now }
    ensures { result ≡ var rows.now e }
{
    rows[e] as usize
}

// How many checks a word leaves unsatisfied, and one of them. The check is 0 where the count is: no Option, as the count says that there is none, and the
// C interface has both as numbers in a record.
#[derive(Debug, Clone, Copy, PartialEq, Eq, Default)]
pub struct Unmet {
    pub count: u32,
    pub check: u32,
}
