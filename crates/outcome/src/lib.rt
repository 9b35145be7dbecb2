// One word of a run: its outcome from its values. What its soft values meet before any iteration, its bits, and its BCH part corrected.
#![tactic(auto)]

ghost use Rattle.std.specs.Prelude.{◌≡◌, ◌+◌, ◌<◌, ◌≤◌, eqb, length};
ghost use Rattle.iteration.specs.Iteration.{negatives};
ghost use Rattle.iteration.specs.Lists.{var, code_in};
ghost use Rattle.iteration.specs.Count.{unmet_at};
ghost use Rattle.iteration.specs.CountLaws.{UnmetCounted};
ghost use Rattle.outcome.specs.Outcome.{begin, bits_of, met_of, corrected, bch_result, bch_of, is_finished, kept_of, doubtful_of, lost_of, unless_lost};
ghost use Rattle.outcome.specs.State.{number, ended};
ghost use Rattle.outcome.specs.Changed.{changed_bits, Comparing};
ghost use Rattle.outcome.specs.Soft.{Edges, values};

use decoder_plan::Part;
use fixed_code::{CodeLists, Unmet};
use refusal::Refusal;

// How many of a check's variables, one in each row, have a negative value. A repeated variable counts as often as it occurs.
fn negative(rows: &[u32], soft: &[i8]) -> usize
    requires { Edges rows.now (length soft.now) }
    ensures { result ≡ negatives (var rows.now) 0 (length rows.now) (values soft.now) }
{
    let mut count = 0;
    for &v in rows {
        count += usize::from(lane_math::bit(soft[v as usize]));
    }
    count
}

// A word's soft values, and the lists of its code.
#[derive(Clone, Copy)]
struct Word<'a> {
    code: CodeLists<'a>,
    soft: &'a [i8],
    ghost long: { length soft.now ≡ code.n },
}

impl Word<'_> {
    // Whether check c is unsatisfied: an odd number of its variables' values are negative.
    fn odd(self, c: usize) -> bool
        requires { c < self.code.p }
        ensures { result ≡ eqb (unmet_at (code_in self.entry.code.p self.entry.code.lists.now) (begin (length self.entry.soft.now) self.entry.soft.now).L c) 1 }
    {
        let Word { code, soft } = self;
        let s = code.start(c);
        let d = code.degree(c);
        negative(&code.rows[s..s + d], soft) % 2 == 1
    }
}

// Whether a word's soft values meet every check. The scan ends at the first unsatisfied one. (`all` over the range was tried: the search does not find from
// its contract which checks the range gave.)
pub fn soft_met(code: CodeLists<'_>, soft: &[i8]) -> bool
    requires { length soft.now ≡ code.n }
    ensures { result ≡ met_of (code_in code.entry.p code.entry.lists.now) code.entry.p (begin (length soft.now) soft.now) }
{
    let word = Word { code, soft };
    for c in 0..code.p {
        if word.odd(c) {
            return false;
        }
    }
    true
}

// How many checks a word's soft values leave unsatisfied, and one of them.
pub fn soft_unmet(code: CodeLists<'_>, soft: &[i8]) -> Unmet
    requires { (length soft.now ≡ code.n) × (code.p ≤ 44880) }
    ensures { UnmetCounted (code_in code.entry.p code.entry.lists.now) code.entry.p (begin (length soft.now) soft.now) result.count result.check }
{
    let word = Word { code, soft };
    let mut count = 0;
    let mut check = 0;
    for c in 0..code.p {
        if word.odd(c) {
            count += 1;
            check = c as u32;
        }
    }
    Unmet { count, check }
}

// A word's hard decisions before any iteration. (By number: of `iter_mut().zip(..)` a proof knows the length alone.)
pub fn soft_bits(soft: &[i8], out: &mut [u8])
    requires { length out.old ≡ length soft.now }
    ensures { out.new ≡ bits_of (length soft.now) (begin (length soft.now) soft.now) }
{
    for (i, &value) in soft.iter().enumerate() {
        out[i] = lane_math::bit(value);
    }
}

// So many positions are compared at a time: their count fits a u8, of which the compiler adds sixteen at once.
const BLOCK: usize = 224;

// In how many of the positions from `from` to before `to` a word's bits differ from its hard decisions before any iteration. (The whole word with two places, and no
// chunks of both slices: the definition counts positions of the word, and the places say which.)
fn differing(soft: &[i8], bits: &[u8], from: usize, to: usize) -> u8
    requires { (length bits.now ≡ length soft.now) × (from ≤ to) × (to ≤ length soft.now) × (to ≤ from + 255) }
    ensures { Comparing (bits_of (length soft.now) (begin (length soft.now) soft.now)) bits.now from to result }
{
    let mut count = 0;
    for k in from..to {
        count += (lane_math::bit(soft[k]) ^ bits[k]) % 2;
    }
    count
}

// In how many positions a word's bits differ from its hard decisions before any iteration.
pub fn changed(soft: &[i8], bits: &[u8]) -> u32
    requires { (length bits.now ≡ length soft.now) × (length soft.now ≤ 65535) }
    ensures { result ≡ changed_bits (length soft.now) (begin (length soft.now) soft.now) bits.now }
{
    let n = soft.len();
    let mut count = 0;
    for from in (0..n).step_by(BLOCK) {
        count += u32::from(differing(soft, bits, from, n.min(from + BLOCK)));
    }
    count
}

// The BCH result of a lost word: the C interface has one number in a record for count and loss.
pub const LOST: u32 = 4294967295;

// The number that stands for BCH's answer.
#[tactic(auto, unfolding(crate::specs::Outcome::bch_result, crate::specs::Outcome::lost))]
fn result_of(answer: Result<Option<u32>, Refusal>) -> u32
    ensures { result ≡ bch_result answer }
{
    match answer {
        Ok(Some(k)) => k,
        Ok(None) | Err(_) => LOST,
    }
}

// The bits that BCH corrected, if the word is not lost.
#[tactic(auto, unfolding(crate::specs::Outcome::unless_lost, crate::specs::Outcome::is_lost, crate::specs::Outcome::lost))]
pub fn unless_lost(bch: u32) -> Option<u32>
    ensures { result ≡ unless_lost bch }
{
    (bch != LOST).then_some(bch)
}

// A word's BCH part corrected inside it. BCH's result. (No Option: it is the record's number, which `bch_of` defines, and decoder_correct puts it there or
// keeps the record's own.)
pub fn correct(word: &mut [u8], part: Part) -> u32
    requires { part.first + part.length ≤ length word.old }
    ensures result { result ≡ bch_of part word.old }
    ensures bits { word.new ≡ corrected part word.old }
{
    let first = part.first as usize;
    let size = part.length as usize;
    let end = first + size;
    let answer = bch::decode(&mut word[first..end]);
    result_of(answer)
}

// A word's state, and its number in a record.
#[derive(Debug, Clone, Copy, PartialEq, Eq, Drop)]
pub enum State {
    Waiting = 0,
    Held = 1,
    Met = 2,
    Unmet = 3,
}

impl State {
    // A finished word's.
    pub fn ended(met: bool) -> State
        ensures { result ≡ ended met }
    {
        if met { State::Met } else { State::Unmet }
    }

    // (A method, as Refusal's, and no `From`: contracts call it `number`.)
    pub fn number(self) -> u32
        ensures { result ≡ number self }
    {
        self as u32
    }
}

// Whether a state is a finished word's. A number of no state counts as not finished: a record that a caller of the C interface lends may hold any, and a
// `TryFrom<u32> for State` would leave each caller an error that says just that.
#[tactic(auto, unfolding(crate::specs::Outcome::is_finished))]
pub fn is_finished(state: u32) -> bool
    ensures { result ≡ is_finished state }
{
    state == State::Met.number() || state == State::Unmet.number()
}

// What a word adds to the tally's `kept`, by its record's numbers. (It and the next two stay three: each equals a definition of its own, and one function of
// them would need a flag.)
#[tactic(auto, unfolding(crate::specs::Outcome::kept_of, crate::specs::Outcome::is_lost, crate::specs::Outcome::lost))]
pub fn kept_of(state: u32, bch: u32) -> u32
    ensures { result ≡ kept_of state bch }
{
    u32::from(state == State::Met.number() && bch != LOST)
}

// What a word adds to the tally's `doubtful`, by its record's numbers.
#[tactic(auto, unfolding(crate::specs::Outcome::doubtful_of, crate::specs::Outcome::is_lost, crate::specs::Outcome::lost))]
pub fn doubtful_of(state: u32, bch: u32) -> u32
    ensures { result ≡ doubtful_of state bch }
{
    u32::from(state == State::Unmet.number() && bch != LOST)
}

// What a word adds to the tally's `lost`, by its record's numbers.
#[tactic(auto, unfolding(crate::specs::Outcome::lost_of, crate::specs::Outcome::is_lost, crate::specs::Outcome::lost))]
pub fn lost_of(state: u32, bch: u32) -> u32
    ensures { result ≡ lost_of state bch }
{
    u32::from(is_finished(state) && bch == LOST)
}
