// Item 1: the kind of a word, by its front and its number of letters.
ghost use Rattle.std.specs.Prelude.{◌≡◌};
ghost use Rattle.definition.specs.Words.{Word};
ghost use Rattle.definition.specs.Kind.{kind};
ghost use Rattle.definition.specs.StepRow.{kind_check, step_row};
ghost use Rattle.utf8.specs.Spelt.{Encodes, Spelt};
ghost use Rattle.arabic.specs.Kinds.{flags};

use crate::tables;
use crate::tried::{Searched, met};
use snowball::among::find_among;

// What a word can be, as the Rust's three flags.
#[derive(Clone, Copy, Debug, PartialEq, Eq)]
pub struct Kind {
    pub defined: bool,
    pub verb: bool,
    pub noun: bool,
}

impl Kind {
    pub const OPEN: Kind = Kind {
        defined: false,
        verb: true,
        noun: true,
    };

    pub const DEFINED: Kind = Kind {
        defined: true,
        verb: false,
        noun: true,
    };
}

// The row of A_3 that the word begins with, and its kind: defined where there is one and the word has enough letters for its class.
pub fn kind_of(text: &[u8]) -> Searched<Kind>
    requires { Spelt text.now }
    ensures { (w : Word) → Encodes text.now w → (result.outcome ≡ flags (kind w)) × (result.row ≡ step_row kind_check w) }
{
    let found = find_among(text, 0, text.len(), &tables::A_3);
    let defined = met(text, &[5, 4], found.class);
    Searched {
        row: found.row,
        outcome: if defined { Kind::DEFINED } else { Kind::OPEN },
    }
}
