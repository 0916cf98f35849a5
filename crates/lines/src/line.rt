// A line that is being read, in a buffer of fixed size.
ghost use Rattle.std.specs.Prelude.{◌≡◌, List, [], ℕ, ◌≤◌, take};
ghost use Rattle.lines.specs.Line.{put_behind};

use std::marker::Model;

// The first N bytes of a line, as far as it is read. What stands behind them in the buffer has no meaning.
#[derive(Drop)]
pub struct Line<const N: usize> {
    buffer: [u8; N],
    len: usize,
}

// Clauses see the bytes that are kept.
impl<const N: usize> Model for Line<N> {
    ghost Value = { List ℕ };

    ghost view = { λ line. take line.len line.buffer };

    ghost invariant = { λ line. line.len ≤ N };
}

impl<const N: usize> Line<N> {
    // A line with no byte yet.
    pub fn new() -> Self
        ensures { result ≡ [] }
    {
        Line {
            buffer: [0; N],
            len: 0,
        }
    }

    // The first N bytes of a line.
    pub fn of(bytes: &[u8]) -> Self
        ensures { result ≡ take N bytes.now }
    {
        let len = bytes.len().min(N);
        let mut buffer = [0; N];
        buffer[..len].copy_from_slice(&bytes[..len]);
        Line { buffer, len }
    }

    pub fn as_bytes(&self) -> &[u8]
        ensures { result.now ≡ self.now }
    {
        &self.buffer[..self.len]
    }

    // A byte behind the line; the tail of a line of more than N bytes is dropped.
    #[tactic(auto, unfolding(crate::specs::Line::put_behind))]
    pub fn push(&mut self, byte: u8)
        ensures { self.new ≡ put_behind N self.old byte }
    {
        let len = self.len;
        if len < N {
            self.buffer[len] = byte;
            self.len = len + 1;
        }
    }

    pub fn clear(&mut self)
        ensures { self.new ≡ [] }
    {
        self.len = 0;
    }
}
