// Figures over the last so-many finished words of a long series, kept up record by record. The window itself goes by value; the records that it
// covers stand in a ring of numbers that the caller lends, three to a record. The time for a record does not depend on the width.
#![tactic(auto)]

ghost use Rattle.std.specs.Prelude.{◌≡◌, [], ◌∷◌, ◌+◌, ◌*◌, ◌<◌, ◌≤◌, get_or, length};
ghost use Rattle.refusal.specs.Number.{number_of};
ghost use Rattle.window.specs.Figures.{corrected_by};
ghost use Rattle.window.specs.Push.{push_refusal, slot_of, next_at, next_words, slid, leaving, written, moved, Pushes};

use decoder_words::Noted;
use refusal::Refusal;

// What a window reads of a word's record, and the ring holds of it.
#[derive(Clone, Copy, Debug, PartialEq, Eq, Default)]
pub struct Record {
    // Numbers, since the ring and the records are lent by the C interface and may hold any.
    pub state: u32,
    pub iterations: u32,
    // 4,294,967,295 for a lost word.
    pub bch: u32,
}

impl From<Noted> for Record {
    ghost from_gives = { λ noted of. of ≡ record { state = noted.state; iterations = noted.iterations; bch = noted.bch } };

    fn from(noted: Noted) -> Record {
        Record {
            state: noted.state,
            iterations: noted.iterations,
            bch: noted.bch,
        }
    }
}

// The slot of the ring that the next record takes, how many records the window covers, and its figures over them. Zeros: an empty window.
#[derive(Clone, Copy, Debug, PartialEq, Eq, Default)]
pub struct Window {
    pub at: u64,
    pub words: u64,
    pub lost: u64,
    pub iterations: u64,
    pub corrected: u64,
    pub doubtful: u64,
}

// Its numbers, in their order.
impl From<Window> for [u64; 6] {
    ghost from_gives = { λ of own. own ≡ of.at ∷ of.words ∷ of.lost ∷ of.iterations ∷ of.corrected ∷ of.doubtful ∷ [] };

    fn from(of: Window) -> [u64; 6] {
        [
            of.at,
            of.words,
            of.lost,
            of.iterations,
            of.corrected,
            of.doubtful,
        ]
    }
}

// The window that such numbers are.
impl From<[u64; 6]> for Window {
    ghost from_gives = { λ own of. of ≡ record {
      at = get_or own 0 0;
      words = get_or own 1 0;
      lost = get_or own 2 0;
      iterations = get_or own 3 0;
      corrected = get_or own 4 0;
      doubtful = get_or own 5 0;
    } };

    fn from(own: [u64; 6]) -> Window {
        let [at, words, lost, iterations, corrected, doubtful] = own;
        Window {
            at,
            words,
            lost,
            iterations,
            corrected,
            doubtful,
        }
    }
}

// Refused by 14, a width of 0 or above 4,096, then by 13, a shorter ring.
#[tactic(auto, unfolding(crate::specs::Push::push_refusal))]
fn accept(width: u32, room: usize) -> Result<(), Refusal>
    ensures { number_of result ≡ push_refusal width room }
{
    if width == 0 || 4096 < width {
        return Err(Refusal::Width);
    }
    if room < 3 * (width as usize) {
        return Err(Refusal::TooShort);
    }
    Ok(())
}

// What a record adds to the corrected bits.
#[tactic(auto, unfolding(crate::specs::Figures::corrected_by, outcome::specs::Outcome::unless_lost))]
fn corrected_by(of: Record) -> u32
    ensures { result ≡ corrected_by of }
{
    outcome::unless_lost(of.bch).unwrap_or(0)
}

// A sum with one number more and one less.
#[tactic(auto, unfolding(crate::specs::Push::slid))]
fn slide(sum: u64, more: u32, less: u32) -> u64
    ensures { result ≡ slid sum more less }
{
    sum.wrapping_add(u64::from(more))
        .wrapping_sub(u64::from(less))
}

#[tactic(auto, unfolding(crate::specs::Push::slot_of))]
fn slot_of(width: u64, at: u64) -> u64
    ensures { result ≡ slot_of width at }
{
    if at < width { at } else { 0 }
}

#[tactic(auto, unfolding(crate::specs::Push::next_at))]
fn next_at(width: u64, slot: u64) -> u64
    requires { slot < width }
    ensures { result ≡ next_at width slot }
{
    if slot + 1 == width { 0 } else { slot + 1 }
}

#[tactic(auto, unfolding(crate::specs::Push::next_words))]
fn next_words(width: u64, words: u64) -> u64
    ensures { result ≡ next_words width words }
{
    words.saturating_add(1).min(width)
}

// The record that leaves: a full window's oldest, whose slot it is; else zeros, which take nothing from any figure. (An Option would be
// looked into for each of the four.)
// (A record's three numbers are read and written one by one here and in `put`: a conversion each way would name them again.)
#[tactic(auto, unfolding(crate::specs::Push::leaving, crate::specs::Push::record_in))]
fn oldest(width: u64, words: u64, ring: &[u32], slot: usize) -> Record
    requires { 3 * slot + 3 ≤ length ring.now }
    ensures { result ≡ leaving width words ring.now slot }
{
    if width <= words {
        Record {
            state: ring[3 * slot],
            iterations: ring[3 * slot + 1],
            bch: ring[3 * slot + 2],
        }
    } else {
        Record::default()
    }
}

#[tactic(auto, unfolding(crate::specs::Push::written))]
fn put(ring: &mut [u32], slot: usize, of: Record)
    requires { 3 * slot + 3 ≤ length ring.old }
    ensures { ring.new ≡ written ring.old slot of }
{
    ring[3 * slot] = of.state;
    ring[3 * slot + 1] = of.iterations;
    ring[3 * slot + 2] = of.bch;
}

// The window with `new` in its slot, which `old` leaves.
#[tactic(auto, unfolding(crate::specs::Push::moved, crate::specs::Figures::lost_by, crate::specs::Figures::iterations_by, crate::specs::Figures::doubtful_by))]
fn advance(width: u64, was: Window, slot: u64, old: Record, new: Record) -> Window
    requires { slot < width }
    ensures { result ≡ moved width was slot old new }
{
    let lost_new = outcome::lost_of(new.state, new.bch);
    let lost_old = outcome::lost_of(old.state, old.bch);
    let doubtful_new = outcome::doubtful_of(new.state, new.bch);
    let doubtful_old = outcome::doubtful_of(old.state, old.bch);
    Window {
        at: next_at(width, slot),
        words: next_words(width, was.words),
        lost: slide(was.lost, lost_new, lost_old),
        iterations: slide(was.iterations, new.iterations, old.iterations),
        corrected: slide(was.corrected, corrected_by(new), corrected_by(old)),
        doubtful: slide(was.doubtful, doubtful_new, doubtful_old),
    }
}

// One record more. `ring` has 3 numbers for each of the `width` records: the window's own, handed on with it.
// Refused by 14 (a width of 0 or above 4,096), then 13 (a shorter ring).
#[tactic(auto, using(crate::proofs::PushLaws::accepted, crate::specs::Ring::slot_below))]
pub fn push(width: u32, was: Window, new: Record, ring: &mut [u32]) -> Result<Window, Refusal>
    ensures { Pushes width was new ring.old ring.new result }
{
    accept(width, ring.len())?;
    if !outcome::is_finished(new.state) {
        return Ok(was);
    }
    let w = u64::from(width);
    let slot = slot_of(w, was.at);
    let old = oldest(w, was.words, ring, slot as usize);
    put(ring, slot as usize, new);
    Ok(advance(w, was, slot, old, new))
}
