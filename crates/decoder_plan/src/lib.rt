// What a run is asked for, what it goes by, and how it ends.
#![tactic(auto)]

ghost use Rattle.std.specs.Prelude.{◌≡◌, ◌<◌};
ghost use Rattle.decoder_plan.specs.Plan.{is_layered, plan_of};

use ldpc_shape::Sizes;

#[derive(Clone, Copy)]
pub enum Schedule {
    Sequential,
    Layered(u32),
}

// The iteration limit of a word, and the round limit of the run.
#[derive(Clone, Copy)]
pub struct Limits {
    pub iterations: u32,
    pub rounds: u32,
}

// The BCH part of a word: `length` bits from bit `first` on.
#[derive(Clone, Copy)]
pub struct Part {
    pub first: u32,
    pub length: u32,
}

// A run's settings.
#[derive(Clone, Copy)]
pub struct Settings {
    pub lanes: u32,
    pub limits: Limits,
    pub schedule: Schedule,
    pub offset: i8,
    pub part: Part,
}

// What an accepted run goes by: the code's numbers, how many words there are, and the settings. Not `set: Settings`: `lanes` is a length here, and every
// reader would say `plan.set.limits` for `plan.limits`.
#[derive(Clone, Copy)]
pub struct Plan {
    pub sizes: Sizes,
    pub words: usize,
    pub lanes: usize,
    pub limits: Limits,
    pub schedule: Schedule,
    pub offset: i8,
    pub part: Part,
}

// How a run ended.
#[derive(Debug, Clone, Copy, PartialEq, Eq)]
pub enum Ending {
    Finished,
    Stopped,
}

impl Schedule {
    pub fn is_layered(self) -> bool
        ensures { result ≡ is_layered self }
    {
        matches!(self, Schedule::Layered(_))
    }
}

// The plan of a run over so many soft values.
pub fn plan_of(sizes: Sizes, soft: usize, set: Settings) -> Plan
    requires { 0 < sizes.n }
    ensures { result ≡ plan_of sizes soft set }
{
    let Settings {
        lanes,
        limits,
        schedule,
        offset,
        part,
    } = set;
    Plan {
        sizes,
        words: soft / sizes.n,
        lanes: lanes as usize,
        limits,
        schedule,
        offset,
        part,
    }
}
