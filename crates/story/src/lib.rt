// The story of a word's stem: a line for each change of its letters, in the order made (request A3).
#![tactic(auto)]

mod changes;
mod letters;
mod page;
mod steps;

ghost use Rattle.std.specs.Prelude.{◌≡◌, ◌<◌, length};
ghost use Rattle.stemmer.specs.Entries.{code_of, out_after};
ghost use Rattle.story.specs.Entry.{story_room, story_bytes, story_answer, ReadBack};

use letters::mark_puts;
use page::{Page, STORY_ROOM, tell_keys};
use snowball::env::count_chars;
use stemmer::{Refusal, check_word, deliver, unmarked_env};
use steps::tell_items;

// An output of so many bytes is long enough for every story.
pub const ROOM: usize = STORY_ROOM;

// The story of the word as it is typed. An output of ROOM bytes is always long enough.
pub fn story(word: &[u8], out: &mut [u8]) -> Result<usize, Refusal>
    ensures value { result ≡ story_answer word.now (length out.old) }
    ensures out_after { out.new ≡ out_after (story_answer word.now (length out.old)) (story_bytes word.now) out.old }
    ensures read_back { ReadBack word.now (story_answer word.now (length out.old)) out.new }
    ensures room_bound { code_of result ≡ 3 → length out.old < story_room }
{
    check_word(word)?;
    let mut page = Page {
        letters: count_chars(word),
        len: 0,
        text: [0; STORY_ROOM],
    };
    tell_keys(&mut page, word, b"Floating mark", mark_puts);
    tell_items(&mut page, unmarked_env(word));
    deliver(&page.text[..page.len], out)
}
