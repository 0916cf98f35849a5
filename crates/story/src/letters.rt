// How many letters stand for a letter, by the steps whose rows are single letters: none where the letter is no key.
ghost use Rattle.std.specs.Prelude.{◌≡◌};
ghost use Rattle.history.specs.Steps.{floating_mark, normalize_pre, normalize_post_last, normalize_post_other};
ghost use Rattle.story.specs.Telling.{puts_for};

use arabic::normalize::{class_gives, listed_class};
use floating_marks::is_mark;
use snowball::env::count_chars;

// A floating mark is taken out.
pub fn mark_puts(letter: u32) -> Option<usize>
    ensures { result ≡ puts_for floating_mark letter }
{
    is_mark(letter).then_some(0)
}

// A letter of A_0 is deleted, or replaced by what its class gives.
pub fn pre_puts(letter: u32) -> Option<usize>
    ensures { result ≡ puts_for normalize_pre letter }
{
    match listed_class(letter) {
        Some(class) => Some(count_chars(class_gives(class))),
        None => None,
    }
}

// A letter from 0622 to 0626, be it the last or another.
pub fn post_puts(letter: u32) -> Option<usize>
    ensures last { result ≡ puts_for normalize_post_last letter }
    ensures other { result ≡ puts_for normalize_post_other letter }
{
    match letter {
        0x622..=0x626 => Some(1),
        _ => None,
    }
}
