// One iteration of the layered schedule on interleaved memory, for every lane count.
// `work` has n + 3E rows with stride `lanes` (simd). A run's checks are first + x * q, x below m; the t and old messages of its edges stand one check after
// the other.
// In a layer in which variables can have several edges (fixed_conflicts), a run first leaves their values. Then row after row of 374 variables
// is gathered into `sums`, 374 times `lanes` of them, and settled.
#![tactic(auto)]

ghost use Rattle.std.specs.Prelude.{◌≡◌, cond, true, false, Bool, List, ℕ, ◌<◌, ◌≤◌, ◌+◌, ◌*◌, ◌-◌, length, nat_abs, ◌+ℤ◌, ◌-ℤ◌};
ghost use Rattle.iteration.specs.Iteration.{run_count};
ghost use Rattle.lane16.specs.Lanes.{int_at};
ghost use Rattle.lane16.specs.Column.{column};
ghost use Rattle.lane16.specs.Memory.{Memory};
ghost use Rattle.iteration.specs.Once.{shared_in, stepped};
ghost use Rattle.iteration.specs.Lists.{var, rows_in, edges_in, code_in};
ghost use Rattle.fixed_conflicts.specs.Table.{Shares};
ghost use Rattle.fixed_conflicts.specs.Prepared.{Prepared};
ghost use Rattle.iteration.specs.Full.{place_of};
ghost use Rattle.fixed_layered.specs.Sums.{RowOf, LanesGathered, LanesSettled};
ghost use Rattle.fixed_layered.specs.Gather.{gather_at};
ghost use Rattle.fixed_layered.specs.RunMemory.{InRun, Fits, Room};
ghost use Rattle.fixed_layered.specs.Rows.{InRow, Grouped, Smalls, EdgeDone, Gathers, sum_at, run_sum, CheckSettled, RowSettled, FlagWritten, Written};
ghost use Rattle.fixed_layered.specs.Layers.{InLayers, RunMade, RunsMade, LayersMade, Sharing};
ghost use Rattle.fixed_layered.specs.Checks.{PartMade};
ghost use Rattle.fixed_layered.specs.Layered.{Layered};

use fixed::Turns;
use fixed_code::CodeLists;
use fixed_conflicts::RowSpans;
use ldpc_shape::{GROUP, MAX_Q, Sizes};
use simd::Check;

// How many sums 64 lanes have: 374 each.
pub const SUMS: usize = 64 * GROUP;

// What an iteration goes by: the code's lists, its q layers, the rows of addresses and the table of their edges, the lanes, how many checks a run has, and
// the offset.
#[derive(Clone, Copy)]
struct Layering<'a, 'b> {
    code: CodeLists<'a>,
    q: usize,
    groups: usize,
    spans: RowSpans<'b>,
    lanes: usize,
    step: usize,
    offset: i8,
    ghost some_lanes: { 0 < lanes },
    ghost layers: { InLayers code.n code.p q step code.lists.now },
    ghost sharing: { Sharing code.n code.p q groups code.lists.now spans.table.now },
}

// A run of layer l, in which the variables of the flagged rows can have several edges.
#[derive(Clone, Copy)]
struct CheckRun<'a, 'b> {
    turns: Turns<'a>,
    spans: RowSpans<'b>,
    flags: &'b [bool; MAX_Q],
    l: usize,
    ghost in_run: { InRun turns.code.n turns.code.p turns.first turns.q turns.m turns.code.lists.now },
    ghost some: { 0 < turns.m },
    ghost layer: { l < 120 },
    ghost shares: { Shares turns.code.n turns.q (code_in turns.code.p turns.code.lists.now) turns.first turns.m l spans.table.now flags.now },
}

// The row of the 374 variables from `base` on, in a run: in each check its edges are those from `from` up to `upto`.
#[derive(Clone, Copy)]
struct RunRow<'a, 'b> {
    run: CheckRun<'a, 'b>,
    base: usize,
    from: usize,
    upto: usize,
    ghost grouped: { Grouped (code_in run.turns.code.p run.turns.code.lists.now) (stepped run.turns.first run.turns.q) run.turns.m base from upto },
}

// Sixteen lanes' t of the edges of a check, while it is gone through; u that of sixteen more. Two arrays and not one of two: tried, taken
// apart by `let [t, u]`, and `runs` did not close: Rattle's borrow checker does not cover t lent again to each run.
#[derive(Drop)]
struct Scratch {
    t: [i8; 2048],
    u: [i8; 2048],
}

// What a lane has gathered, with one edge more.
fn gathered(seen: bool, sum: i32, t: i8, new: i8, old: i8) -> i32
    requires { seen ≡ true → nat_abs sum ≤ 2000000000 }
    ensures { result ≡ cond seen (sum +ℤ (new -ℤ old)) (t +ℤ new) }
{
    if seen {
        return sum + (i32::from(new) - i32::from(old));
    }
    i32::from(t) + i32::from(new)
}

// One edge more of a variable, with its t, its message and its old message, gathered by every lane; `seen` if there was one before. (By number, here and in
// `settle`: of slices zipped with `iter_mut` a proof knows the length alone.)
fn gather(sums: &mut [i32], seen: bool, t: &[i8], new: &[i8], old: &[i8])
    requires lanes { (length t.now ≡ length sums.old) × (length new.now ≡ length sums.old) × (length old.now ≡ length sums.old) }
    requires small { seen ≡ true → (i : ℕ) → i < length sums.old → nat_abs (int_at sums.old i) ≤ 2000000000 }
    ensures { LanesGathered seen t.now new.now old.now sums.old (length sums.old) sums.new }
{
    for (i, sum) in sums.iter_mut().enumerate() {
        *sum = gathered(seen, *sum, t[i], new[i], old[i]);
    }
}

// The variable's value of every lane from what the lane gathered, clamped once.
fn settle(values: &mut [i8], sums: &[i32])
    requires { length values.old ≡ length sums.now }
    ensures { LanesSettled sums.now (length sums.now) values.new }
{
    for (i, value) in values.iter_mut().enumerate() {
        *value = sums[i].clamp(-128, 127) as i8;
    }
}

// Row u of every lane. (The range stands in full here, where a row is written, and for rows of `sums`: behind a function, as decoder_words has one for words,
// its bounds would be shown again at each use.)
fn row(work: &[i8], u: usize, lanes: usize) -> &[i8]
    requires { u * lanes + lanes ≤ length work.now }
    ensures { RowOf lanes u work.now result.now }
{
    &work[u * lanes..u * lanes + lanes]
}

// The room of `work` and `sums` stays a clause: of a structure lent by `&mut` a ghost field would say it, but each function then that its lists and lanes stay.
impl RunRow<'_, '_> {
    // Edge e, whose t and old message are at `at`, gathered by every lane for its variable, one of the row.
    fn gather_edge(
        self,
        work: &[i8],
        sums: &mut [i32],
        seen: &mut [bool; GROUP],
        e: usize,
        at: usize,
    )
        requires room { Room self.run.turns.code self.run.turns.lanes work.now sums.old }
        requires edge { let rows = rows_in self.run.turns.code.p self.run.turns.code.lists.now in
            (e < length rows) × (at < length rows) × (self.base ≤ var rows e) × (var rows e < self.base + 374) }
        requires smalls { Smalls self.run.turns.lanes at seen.old sums.old }
        ensures { let t = self.entry.run.turns in
            EdgeDone t.code.n (edges_in t.code.p t.code.lists.now) t.lanes at e (var (rows_in t.code.p t.code.lists.now) e - self.entry.base)
            work.now seen.old sums.old seen.new sums.new }
    {
        let Turns { code, lanes, .. } = self.run.turns;
        let edges = code.rows.len();
        let j = fixed_code::variable(code.rows, e) - self.base;
        let t = row(work, code.n + edges + at, lanes);
        let new = row(work, code.n + e, lanes);
        let old = row(work, code.n + 2 * edges + at, lanes);
        gather(
            &mut sums[j * lanes..j * lanes + lanes],
            seen[j],
            t,
            new,
            old,
        );
        seen[j] = true;
    }

    // The d edges from edge s, all of the row.
    fn gather_check(
        self,
        work: &[i8],
        sums: &mut [i32],
        seen: &mut [bool; GROUP],
        s: usize,
        d: usize,
        place: usize,
    )
        requires room { Room self.run.turns.code self.run.turns.lanes work.now sums.old }
        requires edges { let rows = rows_in self.run.turns.code.p self.run.turns.code.lists.now in
            (s + d ≤ length rows) × (place + d ≤ length rows) × InRow (var rows) self.base s d }
        requires smalls { Smalls self.run.turns.lanes place seen.old sums.old }
        ensures { let t = self.entry.run.turns in
            Gathers t.lanes (place + d)
            (λ i j. gather_at t.code.n (edges_in t.code.p t.code.lists.now) (var (rows_in t.code.p t.code.lists.now)) (self.entry.base + j) s place (column t.lanes work.now i) d
            (sum_at t.lanes seen.old sums.old i j))
            seen.new sums.new }
    {
        for k in 0..d {
            self.gather_edge(work, sums, seen, s + k, place + k);
        }
    }

    // Every lane's sums of the row's variables over the run. (Here and in settle_row the row's edges in a check are reckoned alike: a method for both would
    // answer three numbers, as d is needed here too, and its contract, which says them of the lists, is longer than the two lines.)
    fn gather_row(self, work: &[i8], sums: &mut [i32])
        requires { Room self.run.turns.code self.run.turns.lanes work.now sums.old }
        ensures { let t = self.entry.run.turns in let code = code_in t.code.p t.code.lists.now in
            (seen : List Bool) × Gathers t.lanes (place_of code (stepped t.first t.q) t.m)
            (run_sum t.code.n (edges_in t.code.p t.code.lists.now) code (stepped t.first t.q) self.entry.base t.lanes work.now t.m) seen sums.new }
    {
        // A flag for each variable beside its sums, not an Option for each sum: one flag is for all lanes, and the sums are lent memory.
        let mut seen = [false; GROUP];
        let mut place = 0;
        for x in 0..self.run.turns.m {
            let Check { s, d, .. } = self.run.turns.check(x);
            let end = self.upto.min(d);
            self.gather_check(
                work,
                sums,
                &mut seen,
                s + self.from,
                end - self.from,
                place + self.from,
            );
            place += d;
        }
    }

    // The values of the variables of the d edges from edge s, all of the row, from their sums.
    #[tactic(auto, using(crate::specs::Rows::settled_check_start))]
    fn settle_check(self, work: &mut [i8], sums: &[i32], s: usize, d: usize)
        requires room { Room self.run.turns.code self.run.turns.lanes work.old sums.now }
        requires edges { let rows = rows_in self.run.turns.code.p self.run.turns.code.lists.now in
            (s + d ≤ length rows) × InRow (var rows) self.base s d }
        ensures { let t = self.entry.run.turns in
            CheckSettled (var (rows_in t.code.p t.code.lists.now)) self.entry.base s t.lanes sums.now work.old d work.new }
    {
        let Turns { code, lanes, .. } = self.run.turns;
        for &v in &code.rows[s..s + d] {
            let v = v as usize;
            let j = v - self.base;
            settle(
                &mut work[v * lanes..v * lanes + lanes],
                &sums[j * lanes..j * lanes + lanes],
            );
        }
    }

    // The values of the row's variables that have edges in the run.
    #[tactic(auto, using(crate::specs::Rows::settled_row_start))]
    fn settle_row(self, work: &mut [i8], sums: &[i32])
        requires { Room self.run.turns.code self.run.turns.lanes work.old sums.now }
        ensures { let t = self.entry.run.turns in
            RowSettled t.code.n (edges_in t.code.p t.code.lists.now) (code_in t.code.p t.code.lists.now) (stepped t.first t.q) self.entry.base t.lanes sums.now
            work.old t.m work.new }
    {
        for x in 0..self.run.turns.m {
            let Check { s, d, .. } = self.run.turns.check(x);
            let end = self.upto.min(d);
            self.settle_check(work, sums, s + self.from, end - self.from);
        }
    }
}

impl CheckRun<'_, '_> {
    // The values of row g, if its variables can have several edges in the run.
    fn write_row(self, work: &mut [i8], sums: &mut [i32], g: usize)
        requires room { Room self.turns.code self.turns.lanes work.old sums.old }
        requires row { g < 120 }
        ensures { let t = self.entry.turns in
            FlagWritten t.code.n (edges_in t.code.p t.code.lists.now) (code_in t.code.p t.code.lists.now) (stepped t.first t.q) t.m t.lanes self.entry.flags.now g
            work.old work.new }
    {
        if !self.flags[g] {
            return;
        }
        let row = RunRow {
            run: self,
            base: GROUP * g,
            from: self.spans.span(g, self.l),
            upto: self.spans.span(g + 1, self.l),
        };
        row.gather_row(work, sums);
        row.settle_row(work, sums);
    }

    // The values that a run has left.
    #[tactic(auto, using(crate::specs::Rows::written_again))]
    fn write_rows(self, work: &mut [i8], sums: &mut [i32])
        requires { Room self.turns.code self.turns.lanes work.old sums.old }
        ensures { let t = self.entry.turns in
            Written t.code.n (edges_in t.code.p t.code.lists.now) (code_in t.code.p t.code.lists.now) (stepped t.first t.q) t.m t.lanes self.entry.flags.now
            work.old 120 work.new }
    {
        for g in 0..MAX_Q {
            self.write_row(work, sums, g);
        }
    }

    // The run but for the values of the flagged rows' variables.
    #[tactic(auto, using(crate::specs::Checks::checks_end))]
    fn shared_run(self, work: &mut [i8], t: &mut [i8; 2048], u: &mut [i8; 2048])
        requires { Fits self.turns.code self.turns.lanes work.old }
        ensures { let t = self.entry.turns in
            PartMade (shared_in self.entry.flags.now) t.code.n t.code.p t.lanes t.offset t.code.lists.now t.first t.q t.m work.old work.new }
    {
        let mut place = 0;
        for x in 0..self.turns.m {
            let check = self.turns.check(x);
            simd_layered::check_shared(check, work, t, u, place, self.flags, self.turns.offset);
            place += check.d;
        }
    }

    // The run: its checks, then the values of the flagged rows.
    #[tactic(auto, using(crate::specs::Checks::run_law))]
    fn run(self, work: &mut [i8], t: &mut [i8; 2048], u: &mut [i8; 2048], sums: &mut [i32])
        requires { Room self.turns.code self.turns.lanes work.old sums.old }
        ensures { let t = self.entry.turns in
            RunMade t.code.n t.code.p t.lanes t.offset t.code.lists.now t.first t.q t.m work.old work.new }
    {
        self.shared_run(work, t, u);
        self.write_rows(work, sums);
    }
}

impl<'a> Layering<'a, '_> {
    // The m checks first, first + q and so on.
    fn turns(self, first: usize, m: usize) -> Turns<'a>
        requires { (x : ℕ) → x < m → stepped first self.q x < self.code.p }
        ensures of { (result.code ≡ self.entry.code) × (result.lanes ≡ self.entry.lanes) × (result.offset ≡ self.entry.offset) }
        ensures which { (result.first ≡ first) × (result.q ≡ self.entry.q) × (result.m ≡ m) }
    {
        Turns {
            code: self.code,
            lanes: self.lanes,
            offset: self.offset,
            first,
            q: self.q,
            m,
        }
    }

    // Layer l in runs of `step` checks, the last shorter. Where every variable has one edge at most, they are the layer's checks in turn.
    #[tactic(auto, using(crate::specs::Layers::runs_start))]
    fn runs(self, work: &mut [i8], scratch: &mut Scratch, sums: &mut [i32], l: usize)
        requires layer { l < self.q }
        requires room { Room self.code self.lanes work.old sums.old }
        ensures { let of = self.entry in
            RunsMade of.code.n of.code.p of.lanes of.offset of.code.lists.now of.q of.step l work.old (run_count of.step) work.new }
    {
        let Layering {
            q,
            groups,
            spans,
            step,
            ..
        } = self;
        let Some(flags) = spans.shared(groups, q, l) else {
            fixed::checks(self.turns(l, GROUP), work, &mut scratch.t, &mut scratch.u);
            return;
        };
        for at in (0..GROUP).step_by(step) {
            let m = step.min(GROUP - at);
            let run = CheckRun {
                turns: self.turns(l + at * q, m),
                spans,
                flags: &flags,
                l,
            };
            run.run(work, &mut scratch.t, &mut scratch.u, sums);
        }
    }

    // Layers 0 to q − 1.
    #[tactic(auto, using(crate::specs::Layers::layers_start, crate::specs::Layers::layers_again))]
    fn layers(self, work: &mut [i8], sums: &mut [i32])
        requires { Room self.code self.lanes work.old sums.old }
        ensures { let of = self.entry in
            LayersMade of.code.n of.code.p of.lanes of.offset of.code.lists.now of.q of.step work.old of.q work.new }
    {
        let mut scratch = Scratch {
            t: [0; 2048],
            u: [0; 2048],
        };
        for l in 0..self.q {
            self.runs(work, &mut scratch, sums, l);
        }
    }
}

// One layered iteration of every lane's word, with runs of `step` checks. `lists` are the code's and `spans` the table of its rows' edges (fixed_conflicts);
// `sums` is work of 374 times `lanes`. (`of` and `lists` are two parameters and no CodeLists: k is n − p
// and q is p / 374, but Prepared and Layered speak of the sizes' own, and each proof would have to show that division. That the table is whole, as RowSpans
// has it, is in Prepared, which speaks of more than the table.)
pub fn layered_iteration(
    of: Sizes,
    spans: &[u8],
    lists: &[u32],
    work: &mut [i8],
    sums: &mut [i32],
    lanes: usize,
    offset: i8,
    step: usize,
)
    requires prepared { Prepared of lists.now spans.now × Memory of.n of.p lanes lists.now work.old }
    requires lanes_in_bounds { (374 * lanes ≤ length sums.old) × ((0 < step) × (step ≤ 4294967295)) }
    ensures { Layered of.n of.p of.q lanes offset step lists.now work.old work.new }
{
    let Sizes { n, k, p, q, .. } = of;
    let layering = Layering {
        code: CodeLists::new(lists, n, p),
        q,
        groups: k / GROUP,
        spans: RowSpans { table: spans },
        lanes,
        step,
        offset,
    };
    layering.layers(work, sums);
}
