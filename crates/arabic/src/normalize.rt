// Items 2 and 5: the letter loops of r_Normalize_pre and r_Normalize_post.
ghost use Rattle.std.specs.Prelude.{◌≡◌, false, List, ℕ, ◌+◌, ◌<◌, ◌≤◌, length, IfSome};
ghost use Rattle.definition.specs.Words.{Word, every};
ghost use Rattle.definition.specs.Facts.{plain_letter};
ghost use Rattle.definition.specs.Normal.{gives, listed_for, normalise};
ghost use Rattle.definition.specs.Finish.{last, other, finish};
ghost use Rattle.snowball.specs.Chars.{Chars, started};
ghost use Rattle.snowball.specs.Stands.{work_size, longest_word, Stands, Holds};
ghost use Rattle.utf8.specs.Utf8.{encode};
ghost use Rattle.utf8.specs.Spelt.{Encodes, Spelt};
ghost use Rattle.utf8.specs.Beside.{at_letters};
ghost use Rattle.places.specs.Places.{Typed, letters_of, places_of, normal_places};
ghost use Rattle.arabic.specs.Bytes.{LetterIs};
ghost use Rattle.arabic.specs.Rows.{class_of, listed, given_bytes};
ghost use Rattle.arabic.specs.Texts.{typed_text, Normalised, Finished, changed};

use crate::a_0::{A_0_CLASSES, A_0_GIVES, A_0_KEYS};
use crate::tables;
use plain_letters::{copy_plain, plain_at};
use snowball::among::{find_among, find_among_b};
use snowball::env::{Env, WORK_SIZE};
use utf8::letters::{put_bytes, put_letter, read_letter};

// Whether the letters of the text are plain, all of them.
fn all_plain(text: &[u8]) -> bool
    requires { Spelt text.now }
    ensures { (cs : Word) → Encodes text.now cs → result ≡ every plain_letter cs }
{
    let mut cursor = 0;
    while cursor < text.len() {
        let plain = plain_at(text, cursor);
        if !plain {
            return false;
        }
        cursor += 2;
    }
    true
}

// The class of the letter c in A_0, and none where no row has the letter.
pub fn listed_class(c: u32) -> Option<u8>
    ensures { result ≡ listed (class_of c) }
{
    A_0_KEYS.binary_search(&c).ok().map(|row| A_0_CLASSES[row])
}

// The same of a letter that is not plain: a plain letter is not searched.
fn class_of(c: u32) -> Option<u8>
    requires { plain_letter c ≡ false }
    ensures { result ≡ listed (class_of c) }
{
    listed_class(c)
}

// The bytes of the letters that a class gives.
pub fn class_gives(class: u8) -> &'static [u8]
    requires { class < 56 }
    ensures { result.now ≡ encode (listed_for gives class) }
{
    A_0_GIVES[usize::from(class)]
}

// The bytes of what stands for a letter: those that its class gives, or its own where it has none.
fn given<'a>(class: Option<u8>, letter: &'a [u8]) -> &'a [u8]
    requires { IfSome class (λ k. k < 56) }
    ensures { result.now ≡ given_bytes class letter.now }
{
    match class {
        Some(class) => class_gives(class),
        None => letter,
    }
}

// The loop of r_Normalize_pre, from a text into out: a plain letter is copied, any other is searched in A_0. Beside what stands for a
// letter goes the letter's place. The answer is the number of bytes written. The Rust searches every letter, and replaces it within
// the text, which moves all that is behind it.
#[inline(always)]
fn normalize_text(
    text: &[u8],
    places: &[u8; WORK_SIZE],
    out: &mut [u8; WORK_SIZE],
    out_places: &mut [u8; WORK_SIZE],
) -> usize
    requires spelt { Spelt text.now }
    requires fits { (length text.now ≤ longest_word) × (length out.old ≡ work_size) }
    ensures { (ts : List Typed) → Encodes text.now (letters_of ts) → at_letters (letters_of ts) places.now ≡ places_of ts → Normalised ts out.new out_places.new result }
{
    let mut cursor = 0;
    let mut end = 0;
    while cursor < text.len() {
        let place = places[cursor];
        let plain = plain_at(text, cursor);
        if plain {
            out_places[end] = place;
            end = copy_plain(text, cursor, out, end);
            cursor += 2;
            continue;
        }
        let letter = read_letter(text, cursor);
        let next = cursor + letter.width;
        let class = class_of(letter.code);
        let start = end;
        end = put_bytes(out, end, given(class, &text[cursor..next]));
        out_places[start..end].fill(place);
        cursor = next;
    }
    end
}

// The Rust's r_Normalize_pre, for a word of up to 255 bytes: each letter is deleted, replaced or kept. A word of plain letters alone is
// given back as it came. The Rust leaves the cursor at the end and its caller sets it back; here it stays
// in front, and with a new text bra and ket are those of a new environment. The Rust's answer, which is always true, is left out.
#[inline(always)]
pub fn r_Normalize_pre(mut env: Env) -> Env
    requires { Holds env × (env.limit ≤ longest_word) }
    ensures { (ts : List Typed) → Stands env (typed_text ts) → Stands result (started (normalise (letters_of ts)) (normal_places ts)) }
{
    if !all_plain(env.text()) {
        let text = env.current;
        let places = env.places;
        let end = normalize_text(
            &text[..env.limit],
            &places,
            &mut env.current,
            &mut env.places,
        );
        env.limit = end;
        env.ket = end;
    }
    env
}

// What r_Normalize_post makes of the last letter c, whose bytes are lent.
fn last_of(letter: &[u8], c: u32) -> u32
    requires { LetterIs letter.now c }
    ensures { result ≡ last c }
{
    match find_among_b(letter, letter.len(), 0, &tables::A_1).class {
        1..=3 => 0x621,
        _ => c,
    }
}

// What r_Normalize_post makes of any other letter c, whose bytes are lent.
fn other_of(letter: &[u8], c: u32) -> u32
    requires { LetterIs letter.now c }
    ensures { result ≡ other c }
{
    match find_among(letter, 0, letter.len(), &tables::A_2).class {
        1 => 0x627,
        2 => 0x648,
        3 => 0x64A,
        _ => c,
    }
}

// What r_Normalize_post makes of the letter c, whose bytes are lent. The rows of A_1 and A_2 are the letters 0622 to 0626; any other
// stays, with no search.
fn changed_of(letter: &[u8], c: u32, ending: bool) -> u32
    requires { LetterIs letter.now c }
    ensures { result ≡ changed ending c }
{
    match c {
        0x622..=0x626 if ending => last_of(letter, c),
        0x622..=0x626 => other_of(letter, c),
        _ => c,
    }
}

// The loop of r_Normalize_post over a text, in place: no letter changes its length.
fn finish_text(text: &mut [u8], i_word_len: usize)
    requires encodes { (cs : Word) × Encodes text.old cs × (length cs ≤ i_word_len) }
    requires fits { length text.old ≤ work_size }
    ensures { (cs : Word) → Encodes text.old cs → Finished cs text.old text.new }
{
    let limit = text.len();
    let mut cursor = 0;
    for _ in 0..i_word_len {
        if cursor >= limit {
            return;
        }
        let letter = read_letter(text, cursor);
        let end = cursor + letter.width;
        let c = changed_of(&text[cursor..end], letter.code, end == limit);
        put_letter(text, cursor, c);
        cursor = end;
    }
}

// The Rust's r_Normalize_post, for a text of up to i_word_len letters. The Rust first changes the last letter by a search in
// A_1, and then makes at most i_word_len turns over the letters, each with a search in A_2. Here one pass of at most as many
// turns does both. The Rust's answer, which is always true, is left out.
#[inline(always)]
pub fn r_Normalize_post(mut env: Env, i_word_len: usize) -> Env
    requires { (s : Chars) × Stands env s × (length s.text ≤ i_word_len) }
    ensures { (w : Word) (ps : List ℕ) → Stands env (started w ps) → Stands result (started (finish w) ps) }
{
    let limit = env.limit;
    finish_text(&mut env.current[0..limit], i_word_len);
    env
}
