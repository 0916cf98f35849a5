// The places of a text's letters, written as numbers.
ghost use Rattle.std.specs.Prelude.{◌≡◌, ◌++◌, ◌≤◌, length, drop};
ghost use Rattle.definition.specs.Words.{Word};
ghost use Rattle.utf8.specs.Spelt.{Encodes, Spelt};
ghost use Rattle.utf8.specs.Beside.{at_letters};

use utf8::letters::read_letter;

// Writes what stands beside the first byte of each letter of a text to the front of numbers.
pub fn put_numbers(text: &[u8], beside: &[u8], numbers: &mut [u16])
    requires spelt { Spelt text.now }
    requires fits { (length text.now ≤ length beside.now) × ((cs : Word) → Encodes text.now cs → length cs ≤ length numbers.old) }
    ensures { (cs : Word) → Encodes text.now cs → numbers.new ≡ at_letters cs beside.now ++ drop (length cs) numbers.old }
{
    let mut cursor = 0;
    let mut count = 0;
    while cursor < text.len() {
        numbers[count] = u16::from(beside[cursor]);
        count += 1;
        cursor += read_letter(text, cursor).width;
    }
}
