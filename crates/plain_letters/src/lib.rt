// Plain letters in bytes, those of 0621 to 063A and 0641 to 064A: whether one stands at a place, and its copy.
#![tactic(auto)]

ghost use Rattle.std.specs.Prelude.{true, List, ℕ, ◌+◌, ◌≤◌, length};
ghost use Rattle.utf8.specs.Utf8.{encode1};
ghost use Rattle.utf8.specs.Letters.{LetterAt, SomeLetter, Wrote};
ghost use Rattle.plain_letters.specs.Telling.{Tells};

use utf8::letters::put_bytes;

// Whether the letter at the cursor is plain: D8 A1 to D8 BA are the bytes of 0621 to 063A, and D9 81 to D9 8A those of 0641 to 064A.
#[tactic(auto, using(utf8::proofs::ReadLetter::room_2))]
pub fn plain_at(text: &[u8], cursor: usize) -> bool
    requires { SomeLetter text.now cursor }
    ensures { Tells text.now cursor result }
{
    match text[cursor] {
        0xD8 => (0xA1..=0xBA).contains(&text[cursor + 1]),
        0xD9 => (0x81..=0x8A).contains(&text[cursor + 1]),
        _ => false,
    }
}

// Copies the plain letter at the cursor, which has two bytes. The answer is the place behind it.
pub fn copy_plain(text: &[u8], cursor: usize, out: &mut [u8], at: usize) -> usize
    requires some_letter { SomeLetter text.now cursor × Tells text.now cursor true }
    requires at_in_bounds { at + 2 ≤ length out.old }
    ensures { (c : ℕ) (t : List ℕ) → LetterAt text.now cursor c t → Wrote out.old at (encode1 c) out.new result }
{
    put_bytes(out, at, &text[cursor..cursor + 2])
}
