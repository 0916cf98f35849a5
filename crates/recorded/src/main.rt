// Answers every entry for each line of standard input: stem, number of endings, kind, normalised and finished word, and the row of each
// step, parted by tabs. A refusal is `?` and its code, and 0 endings; the kind is 0 for open and 1 for defined. The answers of the Rust for
// the same words are stored beside it.
#![tactic(auto)]

mod rows;

ghost use Rattle.std.specs.Prelude.{◌≡◌};
ghost use Rattle.lines.specs.Line.{put_behind};
ghost use Rattle.recorded.specs.Sizes.{line_bytes};

use arabic::kind::Kind;
use lines::line::Line;
use std::io;
use std::io::{Read, Write};
use stemmer::{BadWord, ROOM, Refusal};

// The bytes of a line that are kept: more than a word may have.
const KEPT_BYTES: usize = 512;

fn write_answer(
    output: &mut impl Write,
    answer: Result<usize, Refusal>,
    out: &[u8],
) -> io::Result<()> {
    match answer {
        Ok(count) => output.write_all(out.get(..count).unwrap_or(&[])),
        Err(refusal) => write!(output, "?{}", refusal.code()),
    }
}

fn write_kind(output: &mut impl Write, kind: Result<Kind, BadWord>) -> io::Result<()> {
    match kind {
        Ok(kind) => write!(output, "{}", u8::from(kind.defined)),
        Err(refusal) => write!(output, "?{}", refusal.code()),
    }
}

fn answer_stem(output: &mut impl Write, word: &[u8], out: &mut [u8]) -> io::Result<()> {
    let found = stemmer::stem(word, out);
    write_answer(output, found.map(|stem| stem.count), out)?;
    let endings = found.map_or(0, |stem| stem.endings);
    write!(output, "\t{endings}")
}

fn answer_others(output: &mut impl Write, word: &[u8], out: &mut [u8]) -> io::Result<()> {
    write_kind(output, stemmer::kind(word))?;
    write!(output, "\t")?;
    let normalised = stemmer::normalise(word, out);
    write_answer(output, normalised, out)?;
    write!(output, "\t")?;
    let finished = stemmer::finish(word, out);
    write_answer(output, finished, out)
}

fn answer(output: &mut impl Write, word: &[u8], out: &mut [u8]) -> io::Result<()> {
    answer_stem(output, word, out)?;
    write!(output, "\t")?;
    answer_others(output, word, out)?;
    write!(output, "\t")?;
    rows::write_rows(output, word)?;
    writeln!(output)
}

// A byte behind the line that is read; the tail of a line of more than KEPT_BYTES is dropped.
fn keep(line: &mut Line<KEPT_BYTES>, byte: u8)
    ensures { line.new ≡ put_behind line_bytes line.old byte }
{
    line.push(byte);
}

// LF answers the line in front of it, and a last line with no LF is not answered.
fn run(input: impl Read + Drop, output: &mut impl Write) -> io::Result<()> {
    let mut line = Line::<KEPT_BYTES>::new();
    let mut out = [0u8; ROOM];
    for byte in input.bytes() {
        let byte = byte?;
        if byte == b'\n' {
            answer(output, line.as_bytes(), &mut out)?;
            line.clear();
        } else {
            keep(&mut line, byte);
        }
    }
    Ok(())
}

fn main(rt: HostRuntime) -> io::Result<()> {
    run(rt.stdin(), &mut rt.stdout())
}
