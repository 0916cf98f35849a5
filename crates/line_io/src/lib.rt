// What every line program does with its streams: it reads an input to its end, and writes the answer to each line of it.
// No contract can say what is read or written: which answers the lines have is proved in the crate `lines`.
// A read or a write that fails is handed back, and nothing more is read or written.
#![tactic(auto)]

mod patient;

ghost use Rattle.std.specs.Prelude.{◌≡◌, ◌≤◌, OnOk};
ghost use Rattle.lines.specs.Machine.{after};

use lines::Reader;
use lines::answer::Answer;
use patient::Patient;
use std::io::{Read, Write};
use std::time::Clock;
use std::{fmt, io};

// The most bytes that are read or written at once.
pub const BUFFER_BYTES: usize = 65536;

// Which stream failed, and why.
#[derive(Drop)]
enum Cause {
    Input(io::Error),
    Output(io::Error),
}

// The same of a program.
#[derive(Drop)]
pub struct Failure {
    program: &'static str,
    cause: Cause,
}

// What is said of a failure that `main` returns.
impl fmt::Debug for Failure {
    fn fmt<W: fmt::Write>(&self, f: &mut fmt::Formatter<W>) -> fmt::Result {
        let program = self.program;
        match &self.cause {
            Cause::Input(error) => write!(f, "{program}: standard input: {error}"),
            Cause::Output(error) => write!(f, "{program}: standard output: {error}"),
        }
    }
}

// The machine, the buffer that it writes into, and the output that takes what it wrote.
#[derive(Drop)]
struct Pump<A, W> {
    reader: Reader<A>,
    out: [u8; BUFFER_BYTES],
    output: W,
}

impl<A: Answer, W: Write> Pump<A, W> {
    // Takes all bytes of a chunk: what they make the machine write goes to the output, up to the first write that fails.
    fn take(&mut self, chunk: &[u8]) -> Result<(), Cause>
        requires { A.ROOM ≤ BUFFER_BYTES }
        ensures { OnOk result (self.new.reader ≡ after self.old.reader chunk.now) }
    {
        let mut rest = chunk;
        while !rest.is_empty() {
            let fed = self.reader.feed(rest, &mut self.out);
            self.output
                .write_all(&self.out[..fed.count])
                .map_err(Cause::Output)?;
            rest = &rest[fed.used..];
        }
        Ok(())
    }

    // Writes the answer to the last line, if there is one.
    fn end(&mut self) -> Result<(), Cause>
        requires { A.ROOM ≤ BUFFER_BYTES }
    {
        let count = self.reader.finish(&mut self.out);
        self.output
            .write_all(&self.out[..count])
            .map_err(Cause::Output)
    }
}

// The whole input, up to the first read or write that fails: then the rest of the line is not known, or a gap is in front of it, and
// no last line is answered. The reads are counted, up to a number that no run reaches.
fn answer_all<A: Answer + Drop, R: Read + Drop, W: Write + Drop>(
    mut input: R,
    output: W,
) -> Result<(), Cause>
    requires { A.ROOM ≤ BUFFER_BYTES }
{
    let mut chunk = [0u8; BUFFER_BYTES];
    let mut pump = Pump::<A, W> {
        reader: Reader::start(),
        out: [0; BUFFER_BYTES],
        output,
    };
    for _ in 0..u64::MAX {
        let count = input.read(&mut chunk).map_err(Cause::Input)?;
        if count == 0 {
            break;
        }
        pump.take(&chunk[..count])?;
    }
    pump.end()
}

// A line program of that name, from its input to its output.
pub fn run<A: Answer + Drop, C: Clock, R: Read + Drop, W: Write + Drop>(
    program: &'static str,
    clock: &C,
    input: R,
    output: W,
) -> Result<(), Failure>
    requires { A.ROOM ≤ BUFFER_BYTES }
{
    let input = Patient {
        clock,
        stream: input,
    };
    let output = Patient {
        clock,
        stream: output,
    };
    answer_all::<A, _, _>(input, output).map_err(|cause| Failure { program, cause })
}
