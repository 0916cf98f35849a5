// The entries under the names that C links; include/arabic_stemmer.h declares them. A slice is a pointer and a length.
#![tactic(auto)]

ghost use Rattle.std.specs.Prelude.{◌≡◌, ◌<◌, ◌⊎◌, length};
ghost use Rattle.definition.specs.Normal.{normalise};
ghost use Rattle.definition.specs.Finish.{finish};
ghost use Rattle.definition.specs.Stem.{stem};
ghost use Rattle.definition.specs.Floating.{without_marks};
ghost use Rattle.places.specs.Places.{places};
ghost use Rattle.stemmer.specs.Entries.{most_bytes, enough_room, letters, bytes_of, fitting, answer, out_after, kind_answer, Demand3After, FewEndingsOf, version, stem_entry};
ghost use Rattle.stemmer.specs.Numbers.{places_answer, places_entry, numbers_after, PlacedAfter};
ghost use Rattle.story.specs.Entry.{story_room, story_bytes, story_answer, ReadBack};
ghost use Rattle.arabic_stemmer.specs.Interface.{told, told_stem, told_places, told_kind};

use arabic::kind::Kind;
use stemmer::{BadWord, Refusal, Stem, StemPlaces};

// Code 0 and the number of bytes written, or a refusal's code and 0.
#[repr(C)]
#[derive(Drop)]
pub struct Answer {
    pub code: u32,
    pub count: usize,
}

// The same with the number of endings cut, 0 with a refusal.
#[repr(C)]
#[derive(Drop)]
pub struct StemAnswer {
    pub code: u32,
    pub endings: u32,
    pub count: usize,
}

// The same with the number of the stem's letters, for each of which a place was written; 0 with a refusal.
#[repr(C)]
#[derive(Drop)]
pub struct PlacesAnswer {
    pub code: u32,
    pub endings: u32,
    pub count: usize,
    pub letters: usize,
}

// Code 0 and the kind, 0 for open and 1 for defined; or a refusal's code and 0.
#[repr(C)]
#[derive(Drop)]
pub struct KindAnswer {
    pub code: u32,
    pub kind: u32,
}

impl From<Result<usize, Refusal>> for Answer {
    ghost from_gives = { λ given answer. answer ≡ told given };

    fn from(given: Result<usize, Refusal>) -> Answer {
        match given {
            Ok(count) => Answer { code: 0, count },
            Err(refusal) => Answer {
                code: refusal.code(),
                count: 0,
            },
        }
    }
}

impl From<Result<Stem, Refusal>> for StemAnswer {
    ghost from_gives = { λ given answer. answer ≡ told_stem given };

    fn from(given: Result<Stem, Refusal>) -> StemAnswer {
        let endings = given.map_or(0, |stem| stem.endings);
        let answer = Answer::from(given.map(|stem| stem.count));
        StemAnswer {
            code: answer.code,
            endings,
            count: answer.count,
        }
    }
}

impl From<Result<StemPlaces, Refusal>> for PlacesAnswer {
    ghost from_gives = { λ given answer. answer ≡ told_places given };

    fn from(given: Result<StemPlaces, Refusal>) -> PlacesAnswer {
        let letters = given.map_or(0, |stem| stem.letters);
        let answer = StemAnswer::from(given.map(|stem| Stem {
            count: stem.count,
            endings: stem.endings,
        }));
        PlacesAnswer {
            code: answer.code,
            endings: answer.endings,
            count: answer.count,
            letters,
        }
    }
}

impl From<Result<Kind, BadWord>> for KindAnswer {
    ghost from_gives = { λ given answer. answer ≡ told_kind given };

    fn from(given: Result<Kind, BadWord>) -> KindAnswer {
        match given {
            Ok(kind) => KindAnswer {
                code: 0,
                kind: u32::from(kind.defined),
            },
            Err(word) => KindAnswer {
                code: word.code(),
                kind: 0,
            },
        }
    }
}

// The stem of the word without its floating marks, and how many endings were cut.
#[unsafe(no_mangle)]
pub extern "C" fn arabic_stemmer_stem(word: &[u8], out: &mut [u8]) -> StemAnswer
    ensures value { result ≡ told_stem (stem_entry word.now (length out.old)) }
    ensures out_after { out.new ≡ out_after (answer (without_marks stem) word.now (length out.old)) (bytes_of (without_marks stem) word.now) out.old }
    ensures demand3after { Demand3After word.now (answer (without_marks stem) word.now (length out.old)) out.new }
    ensures few_endings_of { FewEndingsOf word.now result.endings }
    ensures out_len_bound { result.code ≡ 3 → length out.old < enough_room }
{
    stemmer::stem(word, out).into()
}

// The same, and a place for each letter of the stem.
#[unsafe(no_mangle)]
pub extern "C" fn arabic_stemmer_stem_places(
    word: &[u8],
    out: &mut [u8],
    numbers: &mut [u16],
) -> PlacesAnswer
    ensures value { result ≡ told_places (places_entry word.now (length out.old) (length numbers.old)) }
    ensures out_after { out.new ≡ out_after (places_answer word.now (length out.old) (length numbers.old)) (bytes_of (without_marks stem) word.now) out.old }
    ensures numbers_after { numbers.new ≡ numbers_after (places_answer word.now (length out.old) (length numbers.old)) (places (letters word.now)) numbers.old }
    ensures demand3after { Demand3After word.now (places_answer word.now (length out.old) (length numbers.old)) out.new }
    ensures placed_after { PlacedAfter word.now result.code numbers.new }
    ensures few_endings_of { FewEndingsOf word.now result.endings }
    ensures room_bound { result.code ≡ 3 → (length out.old < enough_room) ⊎ (length numbers.old < most_bytes) }
{
    stemmer::stem_places(word, out, numbers).into()
}

// The story of the stem: a line for each change of the word's letters.
#[unsafe(no_mangle)]
pub extern "C" fn arabic_stemmer_story(word: &[u8], out: &mut [u8]) -> Answer
    ensures value { result ≡ told (story_answer word.now (length out.old)) }
    ensures out_after { out.new ≡ out_after (story_answer word.now (length out.old)) (story_bytes word.now) out.old }
    ensures read_back { ReadBack word.now (story_answer word.now (length out.old)) out.new }
    ensures room_bound { result.code ≡ 3 → length out.old < story_room }
{
    story::story(word, out).into()
}

// The word normalised without its floating marks.
#[unsafe(no_mangle)]
pub extern "C" fn arabic_stemmer_normalise(word: &[u8], out: &mut [u8]) -> Answer
    ensures value { result ≡ told (answer (without_marks normalise) word.now (length out.old)) }
    ensures out_after { out.new ≡ out_after (answer (without_marks normalise) word.now (length out.old)) (bytes_of (without_marks normalise) word.now) out.old }
    ensures out_len_bound { result.code ≡ 3 → length out.old < enough_room }
{
    stemmer::normalise(word, out).into()
}

// The word finished.
#[unsafe(no_mangle)]
pub extern "C" fn arabic_stemmer_finish(word: &[u8], out: &mut [u8]) -> Answer
    ensures value { result ≡ told (answer finish word.now (length out.old)) }
    ensures out_after { out.new ≡ out_after (answer finish word.now (length out.old)) (bytes_of finish word.now) out.old }
    ensures out_len_bound { result.code ≡ 3 → length out.old < enough_room }
{
    stemmer::finish(word, out).into()
}

// The kind of the word without its floating marks.
#[unsafe(no_mangle)]
pub extern "C" fn arabic_stemmer_kind(word: &[u8]) -> KindAnswer
    ensures { result ≡ told_kind (kind_answer word.now) }
{
    stemmer::kind(word).into()
}

// The version's text, with the edition that the stems are those of.
#[unsafe(no_mangle)]
pub extern "C" fn arabic_stemmer_version(out: &mut [u8]) -> Answer
    ensures value { result ≡ told (fitting (length version) (length out.old)) }
    ensures out_after { out.new ≡ out_after (fitting (length version) (length out.old)) version out.old }
{
    stemmer::version(out).into()
}
