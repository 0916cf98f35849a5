// The answers of the line program of stems: the stem, or `?` and a code.
ghost use Rattle.lines.specs.Stems.{answer_line, line_room};

use crate::answer::Answer;
use crate::refusals::refuse;
use stemmer::ROOM;

// The most bytes that such a line has.
pub const LINE_ROOM: usize = ROOM + 1;

#[derive(Drop)]
pub struct Stems;

impl Answer for Stems {
    ghost answer = { answer_line };

    ghost ROOM = { line_room };

    const ROOM: usize = LINE_ROOM;

    // Lent ROOM bytes, `stem` never answers that it has no room.
    fn write(line: &[u8], out: &mut [u8]) -> usize {
        match stemmer::stem(line, &mut out[..ROOM]) {
            Ok(found) => {
                out[found.count] = b'\n';
                found.count + 1
            }
            Err(refusal) => refuse(refusal, out),
        }
    }
}
