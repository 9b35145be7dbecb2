// Reads the report's text: a description within the limits, or refusal 1. A reader is lent a text, and answers what the text begins with and
// the text behind it, or nothing.
#![tactic(auto)]

ghost use Rattle.std.specs.Prelude.{◌≡◌, [], ◌++◌, ◌∷◌, ◌+◌, ◌≤◌, ◌<◌, length, IfSome, IfNone, MatchOption};
ghost use Rattle.std.proofs.lemmas.List.Edits.{sets};
ghost use Rattle.arrayvec.specs.ArrayVec.{array_vec_len};
ghost use Rattle.laws.specs.Decimal.{Stops};
ghost use Rattle.laws.specs.Definitions.{decimal};
ghost use Rattle.report_form.specs.Description.{stored, soft_word, soft_words};
ghost use Rattle.report_form.specs.Reading.{lengths_in, addresses_in, schedule_of, settings_of, NoText, OneDescription, RightReading};
ghost use Rattle.report_form.specs.Form.{Missing, Found, Reads, Passes, Listed, byte, lead};
ghost use Rattle.report_form.specs.Forms.{numbers, smalls, row_form, rows, RowsWithin, rows_within, RowsSo, pair_chain, word_form, words_form, schedules, settings_form, pair_form, pair_from, head_form};

mod table;

use arrayvec::ArrayVec;
use decoder_plan::{Limits, Part, Schedule, Settings};
use refusal::Refusal;
pub use table::Rows;

// What a text asks for: the code's n and its rows, the settings, and the number of words, whose soft values stand in the slice that `read` is lent:
// there is no heap for them.
#[derive(Clone, Copy)]
pub struct Reading {
    pub n: u32,
    pub rows: Rows,
    pub settings: Settings,
    pub words: u32,
}

// One byte that has to stand at the front.
pub fn expect(text: &[u8], b: u8) -> Option<&[u8]>
    ensures { Passes (byte b) (λ _. Unit) text.now result }
{
    match text {
        [first, rest @ ..] if *first == b => Some(rest),
        _ => None,
    }
}

// The value of a digit at the front.
fn read_digit(text: &[u8]) -> Option<(u32, &[u8])>
    ensures none { IfNone result (Stops text.now) }
    ensures some { IfSome result (λ r. (r.0 < 10) × (text.now ≡ (48 + r.0) ∷ r.1.now)) }
{
    match text {
        [first, rest @ ..] if first.is_ascii_digit() => Some((u32::from(*first - b'0'), rest)),
        _ => None,
    }
}

// The digits that go on from those of a number that is not 0.
fn read_digits(first: u32, text: &[u8], most: u32) -> Option<(u32, &[u8])>
    requires { 0 < first }
    ensures { Reads (numbers most) (λ v x. x ≡ v) (decimal first ++ text.now) result }
{
    let mut value = first;
    let mut rest = text;
    // No `for`: the text behind the digits is answered too.
    while let Some((digit, after)) = read_digit(rest) {
        value = value.checked_mul(10)?.checked_add(digit)?;
        rest = after;
    }
    if value <= most {
        Some((value, rest))
    } else {
        None
    }
}

// A number of at most `most`, in decimal without a leading zero; no digit follows.
#[tactic(auto, using(crate::proofs::Spell::spelled_first, crate::proofs::Spell::zero_found, crate::proofs::Spell::digit_missing))]
pub fn read_number(text: &[u8], most: u32) -> Option<(u32, &[u8])>
    ensures { Reads (numbers most) (λ v x. x ≡ v) text.now result }
{
    let (first, rest) = read_digit(text)?;
    if first != 0 {
        return read_digits(first, rest, most);
    }
    match read_digit(rest) {
        Some(_) => None,
        None => Some((0, rest)),
    }
}

// A tab and a number of at most `most`. (This and the other two behind a tab stay three: one over the reader would be lent a closure at each
// field, and each closure would need these clauses. Without them, each of their twelve uses would
// have the same two calls, and show `lead_found` and `lead_missing`.)
#[tactic(auto, using(crate::specs::Form::lead_none))]
fn read_field(text: &[u8], most: u32) -> Option<(u32, &[u8])>
    ensures { Reads (lead 9 (numbers most)) (λ v x. x ≡ v) text.now result }
{
    let text = expect(text, b'\t')?;
    read_number(text, most)
}

// A number of 8 bits with its sign.
#[tactic(auto, using(crate::proofs::Smalls::plus_found, crate::proofs::Smalls::plus_missing, crate::proofs::Smalls::minus_missing, crate::proofs::Smalls::minus_zero))]
fn read_small(text: &[u8]) -> Option<(i8, &[u8])>
    ensures { Reads smalls (λ v x. x ≡ v) text.now result }
{
    match expect(text, b'-') {
        None => {
            let (value, rest) = read_number(text, 127)?;
            Some((value as i8, rest))
        }
        Some(rest) => {
            let (value, rest) = read_number(rest, 128)?;
            if value == 0 {
                return None;
            }
            Some((-(value as i16) as i8, rest))
        }
    }
}

// A tab and a number of 8 bits with its sign.
#[tactic(auto, using(crate::specs::Form::lead_none))]
fn read_small_field(text: &[u8]) -> Option<(i8, &[u8])>
    ensures { Reads (lead 9 smalls) (λ v x. x ≡ v) text.now result }
{
    let text = expect(text, b'\t')?;
    read_small(text)
}

// `S` or a step.
#[tactic(auto, using(crate::proofs::Schedules::step_missing))]
fn read_schedule(text: &[u8]) -> Option<(Schedule, &[u8])>
    ensures { Reads schedules (λ v x. x ≡ schedule_of v) text.now result }
{
    match expect(text, b'S') {
        None => {
            let (step, rest) = read_number(text, u32::MAX)?;
            Some((Schedule::Layered(step), rest))
        }
        Some(rest) => match read_digit(rest) {
            Some(_) => None,
            None => Some((Schedule::Sequential, rest)),
        },
    }
}

// A tab and `S` or a step.
#[tactic(auto, using(crate::specs::Form::lead_none))]
fn read_schedule_field(text: &[u8]) -> Option<(Schedule, &[u8])>
    ensures { Reads (lead 9 schedules) (λ v x. x ≡ schedule_of v) text.now result }
{
    let text = expect(text, b'\t')?;
    read_schedule(text)
}

// The settings' line.
fn read_settings(text: &[u8]) -> Option<(Settings, &[u8])>
    ensures { Reads settings_form (λ v x. x ≡ settings_of v) text.now result }
{
    let rest = expect(text, b'P')?;
    let (lanes, rest) = read_field(rest, 4)?;
    let (iterations, rest) = read_field(rest, u32::MAX)?;
    let (offset, rest) = read_small_field(rest)?;
    let (schedule, rest) = read_schedule_field(rest)?;
    let (rounds, rest) = read_field(rest, u32::MAX)?;
    let (first, rest) = read_field(rest, u32::MAX)?;
    let (length, rest) = read_field(rest, u32::MAX)?;
    let rest = expect(rest, b'\n')?;
    let settings = Settings {
        lanes,
        limits: Limits { iterations, rounds },
        schedule,
        offset,
        part: Part { first, length },
    };
    Some((settings, rest))
}

// A pair of position and value, each behind a tab.
#[tactic(auto, using(crate::proofs::Lines::pair_found, crate::proofs::Lines::no_value))]
fn read_pair(text: &[u8]) -> Option<((u32, i8), &[u8])>
    ensures { Reads pair_form (λ v x. x ≡ pair_from v.0 v.1) text.now result }
{
    let (position, rest) = read_field(text, u32::MAX)?;
    let (value, rest) = read_small_field(rest)?;
    Some(((position, value), rest))
}

// A word's pairs and its newline: the values go to their positions in the word. (This, `read_words` and `read_row` have one shape, items up to an
// end, and stay three: one over the reader of an item would be lent a closure, which would need each reader's clauses.)
fn read_pairs<'a>(text: &'a [u8], word: &mut [i8]) -> Option<&'a [u8]>
    ensures { Passes (pair_chain (length word.old)) (λ x. word.new ≡ stored 0 x.0 word.old) text.now result }
{
    let mut rest = text;
    let mut least: usize = 0;
    for _ in 0..64u32 {
        if let Some(rest) = expect(rest, b'\n') {
            return Some(rest);
        }
        let ((position, value), after) = read_pair(rest)?;
        let place = position as usize;
        if place < least {
            return None;
        }
        if word.len() <= place {
            return None;
        }
        word[place] = value;
        least = place + 1;
        rest = after;
    }
    expect(rest, b'\n')
}

// A word's line: its soft values.
#[tactic(auto, using(crate::proofs::Words::no_word_letter, crate::proofs::Words::no_default))]
fn read_word<'a>(text: &'a [u8], word: &mut [i8]) -> Option<&'a [u8]>
    ensures { Passes (word_form (length word.old)) (λ w. word.new ≡ soft_word (length word.old) w) text.now result }
{
    let rest = expect(text, b'W')?;
    let (value, rest) = read_small_field(rest)?;
    word.fill(value);
    read_pairs(rest, word)
}

// The words' lines, up to the text's end: the soft values of all words, one after another, and the number of words. (No ArrayVec: a word's pairs
// go by their places into a part that is there already.)
fn read_words(text: &[u8], n: usize, soft: &mut [i8; 17952]) -> Option<u32>
    requires { n ≤ 1122 }
    ensures { MatchOption result (Missing (words_form n) text.now)
        (λ count. Found (words_form n) (λ w. (length w.0 ≡ count) × (soft.new ≡ sets soft.old 0 (soft_words n w.0))) text.now []) }
{
    let mut rest = text;
    for count in 0..16 {
        if rest.is_empty() {
            return Some(count);
        }
        let start = count as usize * n;
        rest = read_word(rest, &mut soft[start..start + n])?;
    }
    if rest.is_empty() { Some(16) } else { None }
}

// A row's line: its addresses go behind those of the rows before, and their number is answered.
#[tactic(auto, using(crate::proofs::RowLists::row_again, crate::proofs::RowLists::no_row_letter))]
fn read_row<'a>(text: &'a [u8], addresses: &mut ArrayVec<u16, 12>) -> Option<(u32, &'a [u8])>
    requires { array_vec_len addresses.old ≤ 8 }
    ensures { Reads row_form (λ count row. (length row ≡ count) × (addresses.new.items ≡ addresses.old.items ++ row)) text.now result }
{
    let mut rest = expect(text, b'R')?;
    for count in 0..4 {
        if let Some(rest) = expect(rest, b'\n') {
            return Some((count, rest));
        }
        let (address, after) = read_field(rest, 65535)?;
        addresses.push(address as u16);
        rest = after;
    }
    let rest = expect(rest, b'\n')?;
    Some((4, rest))
}

// The rows' lines, as many as there are.
#[tactic(auto, using(crate::proofs::RowLists::rows_again))]
fn read_rows(text: &[u8]) -> Option<(Rows, &[u8])>
    ensures { Listed rows RowsWithin rows_within (λ r. RowsSo (lengths_in r) (addresses_in r)) text.now result }
{
    let mut lengths = ArrayVec::new();
    let mut addresses = ArrayVec::new();
    let mut rest = text;
    for _ in 0..3u32 {
        let [b'R', ..] = rest else {
            break;
        };
        let (length, after) = read_row(rest, &mut addresses)?;
        lengths.push(length);
        rest = after;
    }
    Some((Rows::of(&lengths, &addresses), rest))
}

// The first line: the code's n.
#[tactic(auto, using(crate::proofs::Lines::head_found, crate::proofs::Lines::no_head_letter, crate::proofs::Lines::no_head_end))]
fn read_head(text: &[u8]) -> Option<(u32, &[u8])>
    ensures { Reads head_form (λ n x. x.0 ≡ n) text.now result }
{
    let rest = expect(text, b'N')?;
    let (n, rest) = read_field(rest, 1122)?;
    let rest = expect(rest, b'\n')?;
    Some((n, rest))
}

// A whole text: what it asks for, and the words' soft values at the start of the slice.
#[tactic(auto, using(crate::proofs::Whole::no_head, crate::proofs::Whole::no_settings))]
fn read_text(text: &[u8], soft: &mut [i8; 17952]) -> Option<Reading>
    ensures { MatchOption result (NoText text.now) (λ r. OneDescription text.now soft.old r soft.new) }
{
    let (n, rest) = read_head(text)?;
    let (rows, rest) = read_rows(rest)?;
    let (settings, rest) = read_settings(rest)?;
    let words = read_words(rest, n as usize, soft)?;
    Some(Reading {
        n,
        rows,
        settings,
        words,
    })
}

// Reads a whole text. The words' soft values go to the start of the lent slice, one word after another; a refusal changes nothing.
#[tactic(auto, using(crate::proofs::Whole::written_over))]
pub fn read(text: &[u8], words: &mut [i8]) -> Result<Reading, Refusal>
    requires { 17952 ≤ length words.old }
    ensures { RightReading text.now words.old result words.new }
{
    let mut soft = [0i8; 17952];
    let reading = read_text(text, &mut soft).ok_or(Refusal::Form)?;
    let size = (reading.words * reading.n) as usize;
    words[..size].copy_from_slice(&soft[..size]);
    Ok(reading)
}
