// What a line program answers to a line.
ghost use Rattle.std.specs.Prelude.{◌≡◌, List, ℕ, ◌++◌, ◌≤◌, length, drop};

pub trait Answer {
    // The bytes that answer a line. The machine keeps the first bytes of a line alone: `ByKept` says that these are enough.
    ghost answer: { List ℕ → List ℕ };

    // The most bytes that an answer has.
    ghost ROOM: { ℕ };

    const ROOM: usize;

    // The answer to a line, in front of out.
    fn write(line: &[u8], out: &mut [u8]) -> usize
        requires { ROOM ≤ length out.old }
        ensures value { result ≡ length (answer line.now) }
        ensures out_after { out.new ≡ answer line.now ++ drop result out.old };
}
