// What the program answers to a line.
ghost use Rattle.std.specs.Prelude.{◌≡◌, [], ◌∷◌, ◌++◌, ◌+◌, ◌<◌, ◌≤◌, IfOk, length, take, drop};
ghost use Rattle.stemmer.specs.Entries.{enough_room, checked, after_checks, out_after, stem_bytes};
ghost use Rattle.story.specs.Entry.{story_room, story_bytes};
ghost use Rattle.lines.specs.Plain.{line_feed};
ghost use Rattle.lines.specs.Refusals.{text_after};
ghost use Rattle.explain.specs.Explained.{told, explained, explained_room};

use lines::answer::Answer;
use lines::refusals::refuse;
use stemmer::{LONGEST, Refusal, check_word, stem};
use story::story;

// The most bytes that an explanation has: the word, LF, the story, the stem and two more LF.
pub const EXPLAINED_ROOM: usize = LONGEST + 1 + story::ROOM + stemmer::ROOM + 2;

// The word and LF, in front of out.
fn put_word(word: &[u8], out: &mut [u8]) -> usize
    requires { length word.now < length out.old }
    ensures value { result ≡ length word.now + 1 }
    ensures out_after { out.new ≡ (word.now ++ line_feed ∷ []) ++ drop result out.old }
{
    let count = word.len();
    out[..count].copy_from_slice(word);
    out[count] = b'\n';
    count + 1
}

// The story of an accepted word, behind the first bytes of out. Answers how many bytes stand there then. Lent so much room, `story` never answers that it has none.
fn put_story(word: &[u8], at: usize, out: &mut [u8]) -> usize
    requires accepted { checked word.now ≡ Ok tt }
    requires room { at + story_room ≤ length out.old }
    ensures value { result ≡ at + length (story_bytes word.now) }
    ensures out_after { out.new ≡ (take at out.old ++ story_bytes word.now) ++ drop result out.old }
    ensures fits { result ≤ at + story_room }
{
    at + story(word, &mut out[at..at + story::ROOM]).unwrap()
}

// And its stem.
fn put_stem(word: &[u8], at: usize, out: &mut [u8]) -> usize
    requires accepted { checked word.now ≡ Ok tt }
    requires room { at + enough_room ≤ length out.old }
    ensures value { result ≡ at + length (stem_bytes word.now) }
    ensures out_after { out.new ≡ (take at out.old ++ stem_bytes word.now) ++ drop result out.old }
    ensures fits { result ≤ at + enough_room }
{
    at + stem(word, &mut out[at..at + stemmer::ROOM]).unwrap().count
}

// All three of an accepted word, in front of out.
fn tell(word: &[u8], out: &mut [u8]) -> Result<usize, Refusal>
    requires { explained_room ≤ length out.old }
    ensures value { result ≡ after_checks (checked word.now) (Ok (length (told word.now))) }
    ensures out_after { out.new ≡ out_after result (told word.now) out.old }
    ensures fits { IfOk result (λ n. n + 2 ≤ explained_room) }
{
    check_word(word)?;
    let told = put_word(word, out);
    let told = put_story(word, told, out);
    let told = put_stem(word, told, out);
    Ok(told)
}

// The text that answers a line, with LF behind it, in front of out.
fn put_text(line: &[u8], out: &mut [u8]) -> usize
    requires { explained_room ≤ length out.old }
    ensures value { result ≡ length (text_after (checked line.now) (told line.now)) + 1 }
    ensures out_after { out.new ≡ (text_after (checked line.now) (told line.now) ++ line_feed ∷ []) ++ drop result out.old }
    ensures fits { result < explained_room }
{
    match tell(line, out) {
        Ok(count) => {
            out[count] = b'\n';
            count + 1
        }
        Err(refusal) => refuse(refusal, out),
    }
}

#[derive(Drop)]
pub struct Explanations;

impl Answer for Explanations {
    ghost answer = { explained };

    ghost ROOM = { explained_room };

    const ROOM: usize = EXPLAINED_ROOM;

    fn write(line: &[u8], out: &mut [u8]) -> usize {
        let count = put_text(line, out);
        out[count] = b'\n';
        count + 1
    }
}
