// A stream whose reads and writes are made again after a signal, and a moment later where there is nothing to read or no room yet.
ghost use Rattle.std.specs.Prelude.{IfOk, Ok};
ghost use Rattle.line_io.specs.Tries.{SameSizes};

use std::io::{ErrorKind, Read, Write};
use std::time::{Clock, Duration};
use std::{io, thread};

// How long a moment is.
const MOMENT_MILLISECONDS: u64 = 1;

#[derive(Drop)]
pub struct Patient<'a, C, S> {
    pub clock: &'a C,
    pub stream: S,
}

// Whether a call that failed is to be made again.
fn again(clock: &impl Clock, error: &io::Error) -> bool {
    match error.kind() {
        ErrorKind::Interrupted => true,
        ErrorKind::WouldBlock => {
            thread::sleep(clock, Duration::from_millis(MOMENT_MILLISECONDS));
            true
        }
        _ => false,
    }
}

// Makes a call again until it is done, and gives what the last try gave. The tries before it left each size that no call changes as it was.
// A proved loop has to end, and nothing says that there will be something to read or room: the tries are counted, up to a number that
// no run reaches.
fn patiently<T, F: FnMut() -> io::Result<T>>(clock: &impl Clock, mut call: F) -> io::Result<T>
    requires { F.IsAlwaysCallable call }
    ensures { IfOk result (λ done. (last : F) × SameSizes F.step call last × F.post last (Ok done)) }
{
    for _ in 0..u64::MAX {
        match call() {
            Err(error) if again(clock, &error) => {}
            done => return done,
        }
    }
    Err(ErrorKind::TimedOut.into())
}

impl<C: Clock, S: Read> Read for Patient<'_, C, S> {
    fn read(&mut self, buf: &mut [u8]) -> io::Result<usize> {
        let stream = &mut self.stream;
        patiently(self.clock, || stream.read(buf))
    }
}

impl<C: Clock, S: Write> Write for Patient<'_, C, S> {
    fn write(&mut self, buf: &[u8]) -> io::Result<usize> {
        let stream = &mut self.stream;
        patiently(self.clock, || stream.write(buf))
    }

    fn flush(&mut self) -> io::Result<()> {
        self.stream.flush()
    }
}
