// The page that a story is written on, and its lines.
ghost use Rattle.std.specs.Prelude.{◌≡◌, [], ◌∷◌, ◌+◌, ◌<◌, ◌≤◌, length, decimal};
ghost use Rattle.definition.specs.Words.{Word};
ghost use Rattle.definition.specs.Demand3.{AllOf};
ghost use Rattle.utf8.specs.Spelt.{Encodes};
ghost use Rattle.history.specs.Steps.{Step, Deed};
ghost use Rattle.history.specs.History.{keys_in};
ghost use Rattle.history.specs.Text.{digit, hex, spelt};
ghost use Rattle.story.specs.Entry.{story_room};
ghost use Rattle.story.specs.Telling.{Adds, plus_before, Tells, Fits, IsDeed, KeysOf};

use snowball::env::count_chars;
use utf8::letters::read_letter;

// No story has more bytes.
pub const STORY_ROOM: usize = 5937;

// What is written so far, and how many letters the word has by then.
#[derive(Drop)]
pub struct Page {
    pub letters: usize,
    pub len: usize,
    pub text: [u8; STORY_ROOM],
}

// Writes the bytes behind what is written, one by one: a copy of a slice would be a call of memmove here, which the library does without.
fn put(page: &mut Page, bytes: &[u8])
    requires { page.old.len + length bytes.now ≤ story_room }
    ensures { Adds page.old bytes.now page.new }
{
    for &byte in bytes {
        page.text[page.len] = byte;
        page.len += 1;
    }
}

// A digit below 16, with capital letters.
fn digit(d: u32) -> u8
    requires { d < 16 }
    ensures { result ≡ digit d }
{
    if d < 10 {
        return b'0' + d as u8;
    }
    b'A' + (d - 10) as u8
}

// Writes a letter as four hexadecimal digits.
fn put_hex(page: &mut Page, letter: u32)
    requires { (letter < 65536) × (page.old.len + 4 ≤ story_room) }
    ensures { Adds page.old (hex letter) page.new }
{
    put(
        page,
        &[
            digit(letter / 4096),
            digit(letter / 256 % 16),
            digit(letter / 16 % 16),
            digit(letter % 16),
        ],
    );
}

// Writes a number in decimal.
fn put_number(page: &mut Page, number: usize)
    requires { page.old.len + length (decimal number) ≤ story_room }
    ensures { Adds page.old (decimal number) page.new }
{
    let mut digits = itoa::Buffer::new();
    put(page, digits.format(number).as_bytes());
}

// Writes the + that parts the letter at this byte of a row from the one before it.
fn put_plus(page: &mut Page, cursor: usize)
    requires { page.old.len + length (plus_before cursor) ≤ story_room }
    ensures { Adds page.old (plus_before cursor) page.new }
{
    if cursor > 0 {
        put(page, b"+");
    }
}

// Writes letters joined by +.
fn put_letters(page: &mut Page, row: &[u8])
    requires { (cs : Word) × (Encodes row.now cs × (AllOf (λ c. c < 65536) cs × (page.old.len + length (spelt cs) ≤ story_room))) }
    ensures { (cs : Word) → Encodes row.now cs → Adds page.old (spelt cs) page.new }
{
    let mut cursor = 0;
    while cursor < row.len() {
        put_plus(page, cursor);
        let letter = read_letter(row, cursor);
        put_hex(page, letter.code);
        cursor += letter.width;
    }
}

// Writes a line: the step's name, the row's letters, and how many letters are left once as many as are put stand for these.
pub fn tell(page: &mut Page, step_name: &[u8], row: &[u8], puts: usize)
    requires { (d : Deed) × (IsDeed d step_name.now row.now puts × Fits page.old (d ∷ [])) }
    ensures { (d : Deed) → IsDeed d step_name.now row.now puts → Tells page.old (d ∷ []) page.new }
{
    put(page, step_name);
    put(page, b" ");
    put_letters(page, row);
    put(page, b" ");
    let left = page.letters.saturating_sub(count_chars(row)) + puts;
    page.letters = left;
    put_number(page, left);
    put(page, b"\n");
}

// Writes a line for each letter of the text that is a key of the step. puts says of a letter how many are put for it, and none where it is no key.
pub fn tell_keys<F: Fn(u32) -> Option<usize>>(
    page: &mut Page,
    text: &[u8],
    step_name: &[u8],
    puts: F,
)
    requires callable { F.IsAlwaysCallable puts }
    requires keys { (s : Step) × ((w : Word) × KeysOf (F.post puts) step_name.now text.now page.old s w) }
    ensures { (s : Step) (w : Word) → KeysOf (F.post puts) step_name.now text.now page.old s w → Tells page.old (keys_in s w) page.new }
{
    let mut cursor = 0;
    while cursor < text.len() {
        let letter = read_letter(text, cursor);
        let next = cursor + letter.width;
        if let Some(count) = puts(letter.code) {
            tell(page, step_name, &text[cursor..next], count);
        }
        cursor = next;
    }
}
