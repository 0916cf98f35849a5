// UTF-8: whether bytes are well formed, and single letters in bytes.
#![tactic(auto)]

pub mod letters;

ghost use Rattle.std.specs.Prelude.{◌≡◌};
ghost use Rattle.utf8.specs.Utf8.{step, well_formed};
ghost use Rattle.utf8.specs.Reading.{bare, state_of, standing};

// Where a reader of well-formed bytes stands.
#[derive(Clone, Copy, PartialEq, Eq)]
pub enum Reading {
    // Past a whole letter.
    Whole,
    // One, two or three bytes before a letter's end.
    One,
    Two,
    Three,
    // Behind a first byte that leaves fewer second bytes than 80 to BF.
    BehindE0,
    BehindED,
    BehindF0,
    BehindF4,
}

impl Reading {
    // Behind one byte more, by Unicode's Table 3-7. None where the byte may not follow.
    #[tactic(auto, unfolding(crate::specs::Utf8::first, crate::specs::Utf8::step, crate::specs::Utf8::filled))]
    fn next(self, byte: u8) -> Option<Reading>
        ensures { standing result ≡ bare (step (state_of self) byte) }
    {
        match (self, byte) {
            (Reading::Whole, 0x00..=0x7F) => Some(Reading::Whole),
            (Reading::Whole, 0xC2..=0xDF) => Some(Reading::One),
            (Reading::Whole, 0xE0) => Some(Reading::BehindE0),
            (Reading::Whole, 0xED) => Some(Reading::BehindED),
            (Reading::Whole, 0xE1..=0xEF) => Some(Reading::Two),
            (Reading::Whole, 0xF0) => Some(Reading::BehindF0),
            (Reading::Whole, 0xF1..=0xF3) => Some(Reading::Three),
            (Reading::Whole, 0xF4) => Some(Reading::BehindF4),
            (Reading::BehindE0, 0xA0..=0xBF) => Some(Reading::One),
            (Reading::BehindED, 0x80..=0x9F) => Some(Reading::One),
            (Reading::BehindF0, 0x90..=0xBF) => Some(Reading::Two),
            (Reading::BehindF4, 0x80..=0x8F) => Some(Reading::Two),
            (Reading::Three, 0x80..=0xBF) => Some(Reading::Two),
            (Reading::Two, 0x80..=0xBF) => Some(Reading::One),
            (Reading::One, 0x80..=0xBF) => Some(Reading::Whole),
            _ => None,
        }
    }
}

// Whether the bytes are well-formed UTF-8.
pub fn well_formed(word: &[u8]) -> bool
    ensures { result ≡ well_formed word.now }
{
    let mut reading = Reading::Whole;
    for byte in word {
        let Some(next) = reading.next(*byte) else {
            return false;
        };
        reading = next;
    }
    reading == Reading::Whole
}
