// What the entries answer: what the stem entry found, or why a word or an output is refused.
ghost use Rattle.std.specs.Prelude.{◌≡◌, Some};
ghost use Rattle.stemmer.specs.declared.outcome.Refusal.TheVariants.{Bad};
ghost use Rattle.stemmer.specs.Entries.{refusal_code};
ghost use Rattle.stemmer.specs.Messages.{word_text, refusal_text};

use std::error::Error;
use std::fmt;

// What the stem entry answers for an accepted word, if there is room: how many bytes it wrote, and how many endings were cut.
#[derive(Clone, Copy, Debug, PartialEq, Eq)]
pub struct Stem {
    pub count: usize,
    pub endings: u32,
}

// The same with the number of the stem's letters, for each of which a place was written.
#[derive(Clone, Copy, Debug, PartialEq, Eq)]
pub struct StemPlaces {
    pub count: usize,
    pub endings: u32,
    pub letters: usize,
}

// Why a word is refused.
#[derive(Clone, Copy, Debug, PartialEq, Eq)]
pub enum BadWord {
    TooLong,
    NotWellFormed,
}

// Why an entry that writes refuses: for the word, or because what is lent to be written is too short. A refusal leaves it as it was.
#[derive(Clone, Copy, Debug, PartialEq, Eq)]
pub enum Refusal {
    Bad(BadWord),
    NoRoom,
}

impl From<BadWord> for Refusal {
    ghost from_gives = { λ word refusal. refusal ≡ Bad word };

    fn from(word: BadWord) -> Refusal {
        Refusal::Bad(word)
    }
}

impl BadWord {
    // Document 01's code of the refusal, 1 or 2.
    pub fn code(self) -> u32
        ensures { result ≡ refusal_code (Bad self) }
    {
        Refusal::from(self).code()
    }
}

impl Refusal {
    // Document 01's code of the refusal, 1, 2 or 3; 0 is the code of an answer that is no refusal.
    pub fn code(self) -> u32
        ensures { result ≡ refusal_code self }
    {
        match self {
            Refusal::Bad(BadWord::TooLong) => 1,
            Refusal::Bad(BadWord::NotWellFormed) => 2,
            Refusal::NoRoom => 3,
        }
    }
}

impl fmt::Display for BadWord {
    ghost output = { λ word. Some (word_text word) };

    fn fmt<W: fmt::Write>(&self, f: &mut fmt::Formatter<W>) -> fmt::Result {
        f.write_str(match self {
            BadWord::TooLong => "the word has more than 255 bytes",
            BadWord::NotWellFormed => "the word is not well-formed UTF-8",
        })
    }
}

impl fmt::Display for Refusal {
    ghost output = { λ refusal. Some (refusal_text refusal) };

    fn fmt<W: fmt::Write>(&self, f: &mut fmt::Formatter<W>) -> fmt::Result {
        match self {
            Refusal::Bad(word) => word.fmt(f),
            Refusal::NoRoom => f.write_str("what is lent for the result is too short"),
        }
    }
}

impl Error for BadWord {}

impl Error for Refusal {}
