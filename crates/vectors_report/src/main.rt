// Replays texts for the report. Standard input has each behind its length, four bytes, lowest first; the file stdout holds
// their reports by the unchanged Rust's answers and the refusals of the form (compare/oracle/src/bin/report.rs).
#![tactic(auto)]

use std::fmt::Write;
use vectors::Stdout;

// Every text of the input, at most 10,000. A length is three bytes and a fourth that is not looked at.
fn replay(input: &[u8]) {
    let mut rest = input;
    for t in 0..10_000 {
        let Some((&[a, b, c, _], behind)) = rest.split_first_chunk::<4>() else {
            break;
        };
        let size = u32::from_le_bytes([a, b, c, 0]);
        let Some((text, behind)) = behind.split_at_checked(size as usize) else {
            break;
        };
        let _ = writeln!(Stdout, "# {t}");
        io::write_all(1, report_text::report(text).as_str().as_bytes());
        rest = behind;
    }
}

fn main() {
    let mut input = [0; 200_000];
    let n = io::read_full(0, &mut input);
    replay(&input[..n]);
}
