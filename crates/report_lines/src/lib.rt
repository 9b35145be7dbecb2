// Writes the report's lines behind a text.
#![tactic(auto)]

ghost use Rattle.std.specs.Prelude.{◌≡◌, ◌∷◌, [], ◌++◌, ◌+◌, ◌≤◌, ◌<◌, length};
ghost use Rattle.arrayvec.specs.ArrayString.{array_string_len};
ghost use Rattle.laws.specs.Definitions.{decimal};
ghost use Rattle.report_lines.specs.Lines.{ending_text, state_text, bch_text, first_line, result_line, refused_line};

use arrayvec::ArrayString;
use decoder_plan::Ending;
use itoa::Buffer;

// The report's lines. The longest has 16 words: 20 + 16 * 63 bytes.
pub type Lines = ArrayString<1028>;

// What a line says of a word: its state by the number that its record has, its iterations, its unsatisfied checks, the bits that BCH corrected
// if it is not lost, and the bits that LDPC changed.
#[derive(Clone, Copy, Debug)]
pub struct WordResult {
    // As the record has it, whose numbers the C interface lends.
    pub state: u32,
    pub iterations: u32,
    pub unsatisfied: u32,
    pub corrected: Option<u32>,
    pub changed: u32,
}

// A text, and the byte behind it. (The room stays a clause of each function: each asks for its own number of bytes. No `write!`, tried in
// `write_first`: it promises the bytes only if it answers Ok, and no clause says that with room it does.)
fn put<const N: usize>(out: &mut ArrayString<N>, text: &str, behind: char)
    requires { (array_string_len out.old + length text.now + 1 ≤ N) × (behind < 128) }
    ensures bytes { out.new.bytes ≡ out.old.bytes ++ (text.now ++ behind ∷ []) }
    ensures room { array_string_len out.new ≡ array_string_len out.old + length text.now + 1 }
{
    out.push_str(text);
    out.push(behind);
}

// A number in decimal, and the byte behind it.
#[tactic(auto, using(crate::proofs::Numbers::printed_decimal, crate::specs::Sizes::number_length))]
fn put_number<const N: usize>(out: &mut ArrayString<N>, value: u32, behind: char)
    requires { (array_string_len out.old + 11 ≤ N) × (behind < 128) }
    ensures bytes { out.new.bytes ≡ out.old.bytes ++ (decimal value ++ behind ∷ []) }
    ensures room { array_string_len out.new ≤ array_string_len out.old + 11 }
{
    put(out, Buffer::new().format(value), behind);
}

// The ending.
fn ending_text(ending: Ending) -> &'static str
    ensures text { result.now ≡ ending_text ending }
    ensures short { length result.now ≤ 8 }
{
    match ending {
        Ending::Finished => "finished",
        Ending::Stopped => "stopped",
    }
}

// A word's state, by its number (as in `WordResult`).
fn state_text(state: u32) -> &'static str
    ensures text { result.now ≡ state_text state }
    ensures short { length result.now ≤ 7 }
{
    match state {
        0 => "waiting",
        1 => "held",
        2 => "met",
        _ => "unmet",
    }
}

// The BCH result, and a tab.
fn put_bch<const N: usize>(out: &mut ArrayString<N>, corrected: Option<u32>)
    requires { array_string_len out.old + 11 ≤ N }
    ensures bytes { out.new.bytes ≡ out.old.bytes ++ (bch_text corrected ++ 9 ∷ []) }
    ensures room { array_string_len out.new ≤ array_string_len out.old + 11 }
{
    match corrected {
        None => put(out, "-", '\t'),
        Some(corrected) => put_number(out, corrected, '\t'),
    }
}

// The first line of an accepted run: at most 20 bytes.
pub fn write_first<const N: usize>(out: &mut ArrayString<N>, ending: Ending, rounds: u32)
    requires { array_string_len out.old + 20 ≤ N }
    ensures bytes { out.new.bytes ≡ out.old.bytes ++ first_line ending rounds }
    ensures room { array_string_len out.new ≤ array_string_len out.old + 20 }
{
    put(out, ending_text(ending), '\t');
    put_number(out, rounds, '\n');
}

// A word's line: at most 63 bytes.
pub fn write_word<const N: usize>(out: &mut ArrayString<N>, word: u32, r: WordResult)
    requires { array_string_len out.old + 63 ≤ N }
    ensures bytes { out.new.bytes ≡ out.old.bytes ++ result_line word r }
    ensures room { array_string_len out.new ≤ array_string_len out.old + 63 }
{
    put_number(out, word, '\t');
    put(out, state_text(r.state), '\t');
    put_number(out, r.iterations, '\t');
    put_number(out, r.unsatisfied, '\t');
    put_bch(out, r.corrected);
    put_number(out, r.changed, '\n');
}

// The line of a refusal: at most 19 bytes. It takes the number, and any: a `Refusal` would ask more of callers.
pub fn write_refused<const N: usize>(out: &mut ArrayString<N>, number: u32)
    requires { array_string_len out.old + 19 ≤ N }
    ensures { out.new.bytes ≡ out.old.bytes ++ refused_line number }
{
    put(out, "refused", '\t');
    put_number(out, number, '\n');
}
