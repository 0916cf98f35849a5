// The entries: checking a word, working out what is asked of it, delivering the result. Each takes any bytes and any output.
#![tactic(auto)]

mod numbers;
mod outcome;

ghost use Rattle.std.specs.Prelude.{◌≡◌, List, ℕ, ◌<◌, ◌≤◌, ◌⊎◌, length};
ghost use Rattle.definition.specs.Words.{Word};
ghost use Rattle.definition.specs.Normal.{normalise};
ghost use Rattle.definition.specs.Finish.{finish};
ghost use Rattle.definition.specs.Stem.{stem};
ghost use Rattle.definition.specs.Floating.{unmarked, without_marks};
ghost use Rattle.places.specs.Places.{typed, marks_out, places};
ghost use Rattle.snowball.specs.Chars.{started};
ghost use Rattle.snowball.specs.Stands.{Stands};
ghost use Rattle.arabic.specs.Texts.{typed_text};
ghost use Rattle.stemmer.specs.Entries.{code_of, count_of, endings_of, most_bytes, enough_room, letters, bytes_of, checked, fitting, answer, out_after, part_after, Works, without_endings, kind_answer, Demand3After, FewEndingsOf, version, stem_answer, stem_bytes, stem_entry};
ghost use Rattle.stemmer.specs.Numbers.{places_answer, places_entry, numbers_after, endings_in, PlacedAfter};

use arabic::kind::{Kind, kind_of};
use arabic::normalize::r_Normalize_pre;
use arabic::stem::finish_letters;
use floating_marks::{has_mark, take_out};
use numbers::put_numbers;
pub use outcome::{BadWord, Refusal, Stem, StemPlaces};
use snowball::env::{Env, count_chars};
use utf8::well_formed;

// The most bytes that a word may have.
pub const LONGEST: usize = 255;

// An output of so many bytes is long enough for every result of the entries here.
pub const ROOM: usize = 340;

// And a buffer of so many numbers for the places of every stem's letters.
pub const PLACES_ROOM: usize = LONGEST;

// Checking: the word's length, and then its bytes. An accepted word is refused by no entry but for the room.
#[tactic(auto, unfolding(crate::specs::Entries::checked))]
pub fn check_word(word: &[u8]) -> Result<(), BadWord>
    ensures { result ≡ checked word.now }
{
    if word.len() > LONGEST {
        return Err(BadWord::TooLong);
    }
    if !well_formed(word) {
        return Err(BadWord::NotWellFormed);
    }
    Ok(())
}

// An accepted word without its floating marks: the word itself where it has none, and else a copy in front of room.
#[tactic(auto, using(crate::proofs::Without::spelt))]
fn unmarked<'a>(word: &'a [u8], room: &'a mut [u8]) -> &'a [u8]
    requires { (checked word.now ≡ Ok tt) × (length word.now ≤ length room.old) }
    ensures { result.now ≡ bytes_of unmarked word.now }
{
    if !has_mark(word) {
        return word;
    }
    let count = take_out(word, room, &mut [0; LONGEST]);
    &room[..count]
}

// A new environment for an accepted word as it is typed.
#[tactic(auto, using(crate::proofs::Answers::short))]
fn typed_env(word: &[u8]) -> Env
    requires { checked word.now ≡ Ok tt }
    ensures { Stands result (typed_text (typed (letters word.now))) × (result.limit ≤ most_bytes) }
{
    Env::create(word)
}

// And for the word without its floating marks: every letter that is left keeps its place.
#[tactic(auto, using(crate::proofs::Answers::short, crate::proofs::Without::spelt))]
#[inline(always)]
pub fn unmarked_env(word: &[u8]) -> Env
    requires { checked word.now ≡ Ok tt }
    ensures { Stands result (typed_text (marks_out (typed (letters word.now)))) × (result.limit ≤ most_bytes) }
{
    let mut env = Env::create(word);
    if has_mark(word) {
        let count = take_out(word, &mut env.current, &mut env.places);
        env.limit = count;
        env.ket = count;
    }
    env
}

// The word normalised without its floating marks: item 2 alone.
fn normalised_env(word: &[u8]) -> Env
    requires { checked word.now ≡ Ok tt }
    ensures { (ps : List ℕ) × Stands result (started (without_marks normalise (letters word.now)) ps) }
{
    r_Normalize_pre(unmarked_env(word))
}

// The word finished: item 5 on the word as it is typed.
fn finished_env(word: &[u8]) -> Env
    requires { checked word.now ≡ Ok tt }
    ensures { (ps : List ℕ) × Stands result (started (finish (letters word.now)) ps) }
{
    finish_letters(typed_env(word))
}

// Delivering: the text to the front of out, if out has room for it. The answer is how many bytes it has.
#[tactic(auto, unfolding(crate::specs::Entries::fitting, crate::specs::Entries::out_after))]
pub fn deliver(text: &[u8], out: &mut [u8]) -> Result<usize, Refusal>
    ensures value { result ≡ fitting (length text.now) (length out.old) }
    ensures out_after { out.new ≡ out_after result text.now out.old }
{
    let count = text.len();
    if count > out.len() {
        return Err(Refusal::NoRoom);
    }
    out[..count].copy_from_slice(text);
    Ok(count)
}

// The stem of the word without its floating marks, how many endings were cut, and in front of numbers a place for each letter of the stem. An
// output of ROOM bytes and PLACES_ROOM numbers are always enough. Where one of the two is too short neither is written.
pub fn stem_places(word: &[u8], out: &mut [u8], numbers: &mut [u16]) -> Result<StemPlaces, Refusal>
    ensures value { result ≡ places_entry word.now (length out.old) (length numbers.old) }
    ensures out_after { out.new ≡ out_after (places_answer word.now (length out.old) (length numbers.old)) (stem_bytes word.now) out.old }
    ensures numbers_after { numbers.new ≡ numbers_after (places_answer word.now (length out.old) (length numbers.old)) (places (letters word.now)) numbers.old }
    ensures demand3after { Demand3After word.now (places_answer word.now (length out.old) (length numbers.old)) out.new }
    ensures placed_after { PlacedAfter word.now (code_of result) numbers.new }
    ensures few_endings_of { FewEndingsOf word.now (endings_in result) }
    ensures room_bound { code_of result ≡ 3 → (length out.old < enough_room) ⊎ (length numbers.old < most_bytes) }
{
    check_word(word)?;
    let found = arabic::stem::stem(unmarked_env(word));
    let current = found.env.current;
    let beside = found.env.places;
    let text = &current[..found.env.limit];
    let letters = count_chars(text);
    if letters > numbers.len() {
        return Err(Refusal::NoRoom);
    }
    let count = deliver(text, out)?;
    put_numbers(text, &beside, numbers);
    Ok(StemPlaces {
        count,
        endings: found.endings,
        letters,
    })
}

// The same without the places. An output of ROOM bytes is always long enough.
pub fn stem(word: &[u8], out: &mut [u8]) -> Result<Stem, Refusal>
    ensures value { result ≡ stem_entry word.now (length out.old) }
    ensures out_after { out.new ≡ out_after (answer (without_marks stem) word.now (length out.old)) (bytes_of (without_marks stem) word.now) out.old }
    ensures demand3after { Demand3After word.now (without_endings result) out.new }
    ensures few_endings_of { FewEndingsOf word.now (endings_of result) }
    ensures out_len_bound { code_of result ≡ 3 → length out.old < enough_room }
{
    stem_places(word, out, &mut [0; PLACES_ROOM]).map(|placed| Stem {
        count: placed.count,
        endings: placed.endings,
    })
}

// The stem of the word in front of the output, and how many bytes it has: none on refusal, and the output is then as it was.
fn stem_front(word: &[u8], out: &mut [u8]) -> usize
    ensures value { result ≡ count_of (stem_answer word.now (length out.old)) }
    ensures out_after { out.new ≡ out_after (stem_answer word.now (length out.old)) (stem_bytes word.now) out.old }
{
    stem(word, out).map_or(0, |found| found.count)
}

// The stem of the word as the front part of the output, and an empty part on refusal. It gives no code. No contract can speak of the
// output behind a part that is handed back: `stem_front` does all that is done to the output, and says it.
pub fn stem_part<'a>(word: &[u8], out: &'a mut [u8]) -> &'a mut [u8]
    ensures result_value { result.now ≡ part_after (answer (without_marks stem) word.now (length out.old)) (bytes_of (without_marks stem) word.now) }
    ensures ref_ptr_value { result.ref_ptr ≡ out.entry.ref_ptr }
{
    let count = stem_front(word, out);
    &mut out[..count]
}

// An entry whose work turns words into words: the word checked, the work done on it, and the text that is left delivered.
fn answered<F: FnOnce(&[u8]) -> Env>(word: &[u8], out: &mut [u8], work: F) -> Result<usize, Refusal>
    requires { (f : Word → Word) × Works (F.pre work) (F.post work) f }
    ensures value { (f : Word → Word) → Works (F.pre work) (F.post work) f → result ≡ answer f word.now (length out.old) }
    ensures out_after { (f : Word → Word) → Works (F.pre work) (F.post work) f → out.new ≡ out_after (answer f word.now (length out.old)) (bytes_of f word.now) out.old }
    ensures out_len_bound { (f : Word → Word) → Works (F.pre work) (F.post work) f → code_of result ≡ 3 → length out.old < enough_room }
{
    check_word(word)?;
    deliver(work(word).text(), out)
}

// The word normalised without its floating marks. An output of ROOM bytes is always long enough.
pub fn normalise(word: &[u8], out: &mut [u8]) -> Result<usize, Refusal>
    ensures value { result ≡ answer (without_marks normalise) word.now (length out.old) }
    ensures out_after { out.new ≡ out_after (answer (without_marks normalise) word.now (length out.old)) (bytes_of (without_marks normalise) word.now) out.old }
    ensures out_len_bound { code_of result ≡ 3 → length out.old < enough_room }
{
    answered(word, out, normalised_env)
}

// The word finished, as it is typed. An output of ROOM bytes is always long enough.
pub fn finish(word: &[u8], out: &mut [u8]) -> Result<usize, Refusal>
    ensures value { result ≡ answer finish word.now (length out.old) }
    ensures out_after { out.new ≡ out_after (answer finish word.now (length out.old)) (bytes_of finish word.now) out.old }
    ensures out_len_bound { code_of result ≡ 3 → length out.old < enough_room }
{
    answered(word, out, finished_env)
}

// The kind of the word without its floating marks: item 1.
#[tactic(auto, using(crate::proofs::Answers::short, crate::proofs::Without::spelt, crate::proofs::Without::unmarked_spelt))]
pub fn kind(word: &[u8]) -> Result<Kind, BadWord>
    ensures { result ≡ kind_answer word.now }
{
    check_word(word)?;
    Ok(kind_of(unmarked(word, &mut [0; LONGEST])).outcome)
}

// The version of the library, and the edition whose stems it gives, as text.
pub fn version(out: &mut [u8]) -> Result<usize, Refusal>
    ensures value { result ≡ fitting (length version) (length out.old) }
    ensures out_after { out.new ≡ out_after (fitting (length version) (length out.old)) version out.old }
{
    deliver(b"arabic_stemmer 1.0.0, as rust-stemmers 1.2.0", out)
}
