// A line program's work on slices: an input goes in piece by piece, and the answers to its lines come out.
#![tactic(auto)]

pub mod answer;
pub mod line;
pub mod refusals;
pub mod stems;

ghost use Rattle.std.specs.Prelude.{◌≡◌, ◌≤◌, length, take};
ghost use Rattle.lines.specs.Machine.{kept_bytes, Reading, start, opened, Turns, Feeds, Ends};

use answer::Answer;
use line::Line;
use std::marker::{Model, PhantomData};

// How many bytes of a line are kept: one more than the longest word, so that a longer line is seen to be too long.
pub const KEPT_BYTES: usize = 256;

// How many bytes of a piece of the input were taken, and how many bytes they made the machine write.
#[derive(Clone, Copy, Debug, PartialEq, Eq)]
pub struct Fed {
    pub used: usize,
    pub count: usize,
}

// The machine: whether the input's opening mark may still come, and the line that is being read. A says what answers a line.
#[derive(Drop)]
pub struct Reader<A> {
    opening: bool,
    line: Line<KEPT_BYTES>,
    answers: PhantomData<A>,
}

// Clauses see both as a pair.
impl<A> Model for Reader<A> {
    ghost Value = { Reading };

    ghost view = { λ reader. (reader.opening, reader.line) };
}

impl<A: Answer> Reader<A> {
    // Nothing is read yet.
    pub fn start() -> Self
        ensures { result ≡ start }
    {
        Reader {
            opening: true,
            line: Line::new(),
            answers: PhantomData,
        }
    }

    // A reader that goes on where another one stood: whether the input's opening mark may still come, and the line as far as it was read, of
    // which the first bytes are kept.
    pub fn resume(opening: bool, line: &[u8]) -> Self
        ensures { result ≡ (opening, take kept_bytes line.now) }
    {
        Reader {
            opening,
            line: Line::of(line),
            answers: PhantomData,
        }
    }

    // Where it stands: whether the input's opening mark may still come, and what is kept of the line that is being read.
    pub fn so_far(&self) -> (bool, &[u8])
        ensures opening { result.0 ≡ self.now.0 }
        ensures line { result.1.now ≡ self.now.1 }
    {
        (self.opening, self.line.as_bytes())
    }

    // The third byte of the input decides whether it opens with the mark, which is skipped.
    #[tactic(auto, unfolding(crate::specs::Machine::opened), using(crate::proofs::Opening::same_slice))]
    fn skip_mark(&mut self)
        ensures { self.new ≡ opened self.old.0 self.old.1 }
    {
        if self.opening && self.line.as_bytes().len() == 3 {
            self.opening = false;
            if self.line.as_bytes() == b"\xEF\xBB\xBF".as_slice() {
                self.line.clear();
            }
        }
    }

    // One byte: LF writes the answer to the line that was read, any other byte goes behind it. Answers how many bytes it made the machine write.
    #[tactic(auto, unfolding(crate::specs::Machine::step, crate::specs::Machine::said))]
    fn take_byte(&mut self, byte: u8, out: &mut [u8]) -> usize
        requires { A.ROOM ≤ length out.old }
        ensures { Turns A.answer self.old self.new byte out.old out.new result }
    {
        if byte == b'\n' {
            self.opening = false;
            let count = A::write(self.line.as_bytes(), out);
            self.line.clear();
            return count;
        }
        self.line.push(byte);
        self.skip_mark();
        0
    }

    // Takes bytes of a piece of the input as long as out has room for any answer: all of them, or as many as `taken` says.
    // What they make the machine write stands in front of out, and the rest of out is unchanged.
    pub fn feed(&mut self, input: &[u8], out: &mut [u8]) -> Fed
        ensures { Feeds A.answer A.ROOM input.now self.old self.new out.old out.new result.used result.count }
    {
        let mut count = 0;
        for (used, byte) in input.iter().enumerate() {
            if out.len() - count < A::ROOM {
                return Fed { used, count };
            }
            count += self.take_byte(*byte, &mut out[count..]);
        }
        Fed {
            used: input.len(),
            count,
        }
    }

    // The end of the input: a last line with no LF counts if it has a byte. Answers how many bytes it wrote in front of out; the rest of out is unchanged.
    #[tactic(auto, unfolding(crate::specs::Machine::last_line))]
    pub fn finish(&self, out: &mut [u8]) -> usize
        requires { A.ROOM ≤ length out.old }
        ensures { Ends A.answer self.now out.old out.new result }
    {
        let line = self.line.as_bytes();
        if line.is_empty() {
            return 0;
        }
        A::write(line, out)
    }
}
