// Checks in turn on interleaved memory, for every lane count; one iteration of the sequential schedule.
// `work` has n + 3E rows with stride `lanes` (simd).
#![tactic(auto)]

ghost use Rattle.std.specs.Prelude.{◌≡◌, ℕ, ◌+◌, ◌*◌, ◌≤◌, ◌<◌, get_or, length};
ghost use Rattle.iteration.specs.Lists.{rows_in, edges_in};
ghost use Rattle.fixed.specs.Sequential.{InTurn, Iterated};
ghost use Rattle.iteration.specs.Once.{stepped};

use fixed_code::CodeLists;
use simd::Check;

// The checks first + x * q, x below m, of a code, and the lanes and the offset that they are worked on with.
#[derive(Clone, Copy)]
pub struct Turns<'a> {
    pub code: CodeLists<'a>,
    pub lanes: usize,
    pub offset: i8,
    pub first: usize,
    pub q: usize,
    pub m: usize,
    pub ghost some_lanes: { 0 < lanes },
    pub ghost inside: { (x : ℕ) → x < m → stepped first q x < code.p },
}

impl<'a> Turns<'a> {
    // Check x of them: check first + x * q of the code.
    pub fn check(self, x: usize) -> Check<'a>
        requires { x < self.m }
        ensures rows { result.rows.now ≡ rows_in self.entry.code.p self.entry.code.lists.now }
        ensures start { result.s ≡ get_or self.entry.code.lists.now (stepped self.entry.first self.entry.q x) 0 }
        ensures ends { result.s + result.d ≡ get_or self.entry.code.lists.now (stepped self.entry.first self.entry.q x + 1) 0 }
        ensures bits { result.n ≡ self.entry.code.n }
        ensures lanes { result.lanes ≡ self.entry.lanes }
    {
        Check::of(self.code, self.lanes, self.first + x * self.q)
    }
}

// The checks in turn, each reading what the ones before it wrote. t and u are work of 128 times 16. (`work`, with its clause, and t and u stay beside the
// checks, as in simd.)
pub fn checks(turns: Turns<'_>, work: &mut [i8], t: &mut [i8], u: &mut [i8])
    requires fits { (turns.code.n + 3 * edges_in turns.code.p turns.code.lists.now) * turns.lanes ≤ length work.old }
    requires in_bounds { (2048 ≤ length t.old) × (2048 ≤ length u.old) }
    ensures { InTurn turns.entry.code.n turns.entry.code.p turns.entry.lanes turns.entry.offset turns.entry.code.lists.now turns.entry.first turns.entry.q
        work.old turns.entry.m work.new }
{
    for x in 0..turns.m {
        simd::check_node(turns.check(x), work, t, u, turns.offset);
    }
}

// One sequential iteration of every lane's word.
pub fn iteration(code: CodeLists<'_>, work: &mut [i8], lanes: usize, offset: i8)
    requires { ((code.n + 3 * edges_in code.p code.lists.now) * lanes ≤ length work.old) × (0 < lanes) }
    ensures { Iterated code.entry.n code.entry.p lanes offset code.entry.lists.now work.old work.new }
{
    let turns = Turns {
        code,
        lanes,
        offset,
        first: 0,
        q: 1,
        m: code.p,
    };
    let mut t: [i8; 2048] = [0; 2048];
    let mut u: [i8; 2048] = [0; 2048];
    checks(turns, work, &mut t, &mut u);
}
