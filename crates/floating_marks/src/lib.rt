// Floating marks in bytes: whether a word has one, and a copy of a word without them.
#![tactic(auto)]

ghost use Rattle.std.specs.Prelude.{◌≡◌, ◌==◌, not, ◌+◌, ◌≤◌, length, drop, get_or};
ghost use Rattle.std.specs.List.{position_or_len};
ghost use Rattle.definition.specs.Words.{Word};
ghost use Rattle.definition.specs.Floating.{floating, no_mark};
ghost use Rattle.utf8.specs.Letters.{SomeLetter};
ghost use Rattle.utf8.specs.Spelt.{Encodes, Spelt};
ghost use Rattle.floating_marks.specs.Marked.{TellsMark, TellsByte, TakenOut};

use utf8::letters::{put_letter, read_letter};

// Whether the letter is a floating mark: FE70 to FE7F but for FE73 and FE75.
#[tactic(auto, using(crate::proofs::Bytes::marked, crate::proofs::Bytes::not_marked))]
pub fn is_mark(code: u32) -> bool
    ensures { result ≡ floating code }
{
    matches!(code, 0xFE70..=0xFE72 | 0xFE74 | 0xFE76..=0xFE7F)
}

// Whether the letter at a place that begins with EF is a floating mark: the last byte of a letter behind EF B9 tells which of FE40 to FE7F it is.
fn mark_at(word: &[u8], place: usize) -> bool
    requires letter { SomeLetter word.now place }
    requires first { get_or word.now place 0 ≡ 0xEF }
    ensures { TellsMark word.now place result }
{
    word[place + 1] == 0xB9 && is_mark(0xFDC0 + u32::from(word[place + 2]))
}

// Whether one of eight bytes is this one. All eight are looked at, which takes fewer instructions than to stop at one.
fn byte_in_block(text: &[u8], from: usize, byte: u8) -> bool
    requires { from + 8 ≤ length text.now }
    ensures { TellsByte byte text.now from (from + 8) result }
{
    let mut found = false;
    for k in 0..8 {
        if text[from + k] == byte {
            found = true;
        }
    }
    found
}

// Whether a byte of the word is this one, block by block; the last block may share bytes with the one before it.
fn has_byte(word: &[u8], byte: u8) -> bool
    requires { 8 ≤ length word.now }
    ensures { TellsByte byte word.now 0 (length word.now) result }
{
    let last = word.len() - 8;
    let mut i = 0;
    while i < last {
        if byte_in_block(word, i, byte) {
            return true;
        }
        i += 8;
    }
    byte_in_block(word, last, byte)
}

// How many bytes stand before the first byte EF: all, where none is.
fn before_first(bytes: &[u8]) -> usize
    ensures value { result ≡ position_or_len (λ byte. byte == 0xEF) bytes.now }
    ensures within { result ≤ length bytes.now }
{
    bytes.iter().take_while(|byte| **byte != 0xEF).count()
}

// The place of the first byte EF from a place on, or the word's length where there is none.
fn next_first(word: &[u8], from: usize) -> usize
    requires { from ≤ length word.now }
    ensures { result ≡ from + position_or_len (λ byte. byte == 0xEF) (drop from word.now) }
{
    from + before_first(&word[from..])
}

// Whether the word has a floating mark: looks at the letters that begin with EF, which have three bytes. It stays a call, so that a word that
// is not searched pays nothing for it.
#[inline(never)]
fn search_mark(word: &[u8]) -> bool
    requires { Spelt word.now }
    ensures { (cs : Word) → Encodes word.now cs → result ≡ not (no_mark cs) }
{
    let mut place = next_first(word, 0);
    while place < word.len() {
        if mark_at(word, place) {
            return true;
        }
        place = next_first(word, place + 3);
    }
    false
}

// The same, at next to no cost for a word in which one of the bytes EF and B9 does not occur: with these two every mark begins.
#[inline(always)]
pub fn has_mark(word: &[u8]) -> bool
    requires { Spelt word.now }
    ensures { (cs : Word) → Encodes word.now cs → result ≡ not (no_mark cs) }
{
    if word.len() < 8 {
        return search_mark(word);
    }
    has_byte(word, 0xEF) && has_byte(word, 0xB9) && search_mark(word)
}

// Copies a word of up to 255 bytes without its floating marks to the front of out, and beside the first byte of each letter the byte of the
// word where it begins to places. The answer is the number of bytes written.
pub fn take_out(word: &[u8], out: &mut [u8], places: &mut [u8]) -> usize
    requires spelt { Spelt word.now }
    requires fits { (length word.now ≤ 255) × (length word.now ≤ length out.old) × (length word.now ≤ length places.old) }
    ensures { (cs : Word) → Encodes word.now cs → TakenOut cs out.new places.new result }
{
    let mut cursor = 0;
    let mut end = 0;
    while cursor < word.len() {
        let letter = read_letter(word, cursor);
        if !is_mark(letter.code) {
            places[end] = cursor as u8;
            end = put_letter(out, end, letter.code);
        }
        cursor += letter.width;
    }
    end
}
