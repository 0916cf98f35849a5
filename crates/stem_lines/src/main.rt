// Reads standard input to its end, and writes a line for each line of it: the stem, or `?` and the code.
// A read or a write that fails is said on standard error, and nothing more is read or written.
#![tactic(auto)]

use line_io::Failure;
use lines::stems::Stems;

fn main(rt: HostRuntime) -> Result<(), Failure> {
    line_io::run::<Stems, _, _, _>("stem_lines", &rt, rt.stdin(), rt.stdout())
}
