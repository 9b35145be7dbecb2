// Reads a text of the report's form from standard input and writes its report to standard output.
#![tactic(auto)]

ghost use Rattle.std.specs.Prelude.{◌≡◌, ◌≤◌, ◌<◌, length, take, IfOk, IfSome};
ghost use Rattle.std.specs.Io.KnownBytes.{IsAtEnd};
ghost use Rattle.report_text.specs.Cut.{Answered};

use report_lines::Lines;
use std::io;
use std::io::{Print, Read};

// Where the part of the buffer ends that is lent to the next read: 16 bytes, or what is left. It is short so that a text of a few lines
// takes several reads.
fn part_end(start: usize, end: usize) -> usize
    requires { start < end }
    ensures { (start < result) × (result ≤ end) }
{
    start + (end - start).min(16)
}

// Reads until the buffer is full, the input ends or a read fails, also one that a signal ends before it moves a byte: how many bytes stand
// at the start of the buffer, the input's first. (No `take(..).read_to_end`: that fills a Vec, and there is no heap.)
#[tactic(auto, using(crate::proofs::Parts::read_more))]
fn read_input<R: Read>(input: &mut R, buf: &mut [u8]) -> io::Result<usize>
    ensures bound { IfOk result (λ size. size ≤ length buf.old) }
    ensures bytes { IfOk result (λ size. IfSome (R.remaining input.old) (λ all. take size buf.new ≡ take (length buf.old) all)) }
    ensures full { IfOk result (λ size. size < length buf.old → IsAtEnd (R.remaining input.new)) }
{
    let mut size = 0;
    // No `for`: how many bytes a read brings differs.
    while size < buf.len() {
        let end = part_end(size, buf.len());
        let more = input.read(&mut buf[size..end])?;
        if more == 0 {
            return Ok(size);
        }
        size += more;
    }
    Ok(size)
}

// The report on what was read, the input's first 10,502 bytes or all of it. A text of the form has at most 10,501, so what an input has
// behind those plays no part: this is the report on the whole input.
fn answer(text: &[u8]) -> Lines
    ensures { Answered text.now result.bytes }
{
    report_text::report(text)
}

fn main(rt: HostRuntime) {
    let mut buf = [0u8; 10502];
    let Ok(size) = read_input(&mut rt.stdin(), &mut buf) else {
        let _ = rt.eprintln("report: standard input cannot be read");
        return;
    };
    let lines = answer(&buf[..size]);
    if rt.stdout().write_all(lines.as_str().as_bytes()).is_err() {
        let _ = rt.eprintln("report: standard output cannot be written");
    }
}
