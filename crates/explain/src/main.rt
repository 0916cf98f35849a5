// Reads standard input to its end, and explains each line of it: the word, its story and its stem, or `?` and the code, and an empty line behind.
// A read or a write that fails is said on standard error, and nothing more is read or written.
#![tactic(auto)]

mod explanations;

use explanations::Explanations;
use line_io::Failure;

fn main(rt: HostRuntime) -> Result<(), Failure> {
    line_io::run::<Explanations, _, _, _>("explain", &rt, rt.stdin(), rt.stdout())
}
