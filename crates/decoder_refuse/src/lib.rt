// The refusals of a run: 2 to 6 of its code, 7 to 11 of its settings and soft values, 13 of the lent slices.
#![tactic(auto)]

ghost use Rattle.std.specs.Prelude.{◌≡◌, ◌/◌, ◌<◌, ◌≤◌, IfOk};
ghost use Rattle.refusal.specs.Number.{number_of};
ghost use Rattle.ldpc_shape.specs.Shape.{sizes_of};
ghost use Rattle.ldpc_shape.specs.Accepted.{Bounded};
ghost use Rattle.decoder_plan.specs.Plan.{plan_of};
ghost use Rattle.decoder_refuse.specs.Refusal.{bad_lanes, bad_words, bad_step, bad_part, too_short, work_need, lists_need, first_refusal};

use decoder_plan::{Part, Plan, Schedule, Settings};
use ldpc_shape::{Sizes, Table};
use refusal::Refusal;

// How much is lent: soft values, room for the records of so many words, output, and both work slices.
#[derive(Drop)]
pub struct Lent {
    pub soft: usize,
    pub room: usize,
    pub out: usize,
    pub work: usize,
    pub lists: usize,
}

// Lanes are not 1 to 64.
#[tactic(auto, unfolding(crate::specs::Refusal::bad_lanes))]
pub fn bad_lanes(lanes: u32) -> bool
    ensures { result ≡ bad_lanes lanes }
{
    lanes == 0 || 64 < lanes
}

#[tactic(auto, unfolding(crate::specs::Refusal::bad_words))]
fn bad_words(n: usize, soft: usize) -> bool
    requires { 0 < n }
    ensures { result ≡ bad_words n soft }
{
    soft % n != 0 || 4096 < soft / n
}

fn bad_step(s: Schedule) -> bool
    ensures { result ≡ bad_step s }
{
    matches!(s, Schedule::Layered(0))
}

// The sum is one of integers.
#[tactic(auto, unfolding(crate::specs::Refusal::bad_part))]
fn bad_part(n: usize, part: Part) -> bool
    ensures { result ≡ bad_part n part }
{
    !(193..=65535).contains(&part.length) || n < part.first as usize + part.length as usize
}

// (n + 3E) times lanes. (`Bounded` stands here and in the next two, and in no ghost field of `Sizes`: the definition `sizes_of` makes a `Sizes` of any
// lists, also of refused ones, whose sizes have no bounds.)
#[tactic(auto, unfolding(crate::specs::Refusal::work_need))]
pub fn work_need(of: Sizes, lanes: usize) -> usize
    requires { Bounded of × (lanes ≤ 64) }
    ensures { result ≡ work_need of lanes }
{
    (of.n + 3 * of.e) * lanes
}

// E + P + 1.
#[tactic(auto, unfolding(crate::specs::Refusal::lists_need))]
pub fn lists_need(of: Sizes) -> usize
    requires { Bounded of }
    ensures { result ≡ lists_need of }
{
    of.e + of.p + 1
}

#[tactic(auto, unfolding(crate::specs::Refusal::too_short, crate::specs::Refusal::out_need))]
fn too_short(of: Sizes, lanes: usize, lent: &Lent) -> bool
    requires { Bounded of × (lanes ≤ 64) × (lent.now.soft / of.n ≤ 4096) }
    ensures { result ≡ too_short of lanes lent.now }
{
    let words = lent.soft / of.n;
    let work = work_need(of, lanes);
    let lists = lists_need(of);
    lent.out < words * of.n || lent.room < words || lent.work < work || lent.lists < lists
}

// The plan of a run, or the first of the refusals 2 to 11 and 13 that applies.
pub fn plan(n: u32, lens: &[u32], addrs: &[u16], set: Settings, lent: Lent) -> Result<Plan, Refusal>
    ensures number { number_of result ≡ first_refusal n lens.now addrs.now set lent }
    ensures plan { IfOk result (λ p. p ≡ plan_of (sizes_of n lens.now addrs.now) lent.soft set) }
{
    let of = Table::accept(n, lens, addrs)?.sizes;
    if bad_lanes(set.lanes) {
        return Err(Refusal::Lanes);
    }
    if bad_words(of.n, lent.soft) {
        return Err(Refusal::Words);
    }
    if 65535 < set.limits.iterations {
        return Err(Refusal::IterationLimit);
    }
    if bad_step(set.schedule) {
        return Err(Refusal::Step);
    }
    if bad_part(of.n, set.part) {
        return Err(Refusal::Bch);
    }
    if too_short(of, set.lanes as usize, &lent) {
        return Err(Refusal::TooShort);
    }
    Ok(decoder_plan::plan_of(of, lent.soft, set))
}
