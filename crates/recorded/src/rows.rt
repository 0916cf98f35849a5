// The row of each step of the stemmer in one word: 18 numbers parted by spaces. The kind check and each ending get the word as it is; the
// fronts follow each other, each on what the one before it left.
ghost use Rattle.std.specs.Prelude.{◌≡◌, List, ℕ, Ok};
ghost use Rattle.definition.specs.Fronts.{Fronting};
ghost use Rattle.definition.specs.Tries.{Try};
ghost use Rattle.arabic.specs.Fronts.{GivesText, ReadyFront};
ghost use Rattle.stemmer.specs.Entries.{checked};

use arabic::context::{Context, checked, r_Prefix_Step4_Verb};
use arabic::prefix_steps::{
    r_Prefix_Step1, r_Prefix_Step2, r_Prefix_Step3_Verb, r_Prefix_Step3a_Noun, r_Prefix_Step3b_Noun,
};
use arabic::suffix_steps::{
    r_Suffix_All_alef_maqsura, r_Suffix_Noun_Step1b, r_Suffix_Noun_Step2a, r_Suffix_Noun_Step2b,
    r_Suffix_Noun_Step2c1, r_Suffix_Noun_Step2c2, r_Suffix_Noun_Step3, r_Suffix_Verb_Step1,
    r_Suffix_Verb_Step2a, r_Suffix_Verb_Step2b, r_Suffix_Verb_Step2c,
};
use arabic::tried::{Tried, left_by};
use snowball::env::Env;
use std::io;
use std::io::Write;
use stemmer::{BadWord, check_word};

// A word that no entry refuses, and so one that the steps take.
#[derive(Clone, Copy)]
struct Word<'a> {
    bytes: &'a [u8],
    ghost accepted: { checked bytes.now ≡ Ok tt },
}

// The environment that a front's step leaves for the next one.
fn left_for_next(tried: Tried) -> Env
    requires { (ps : List ℕ) × ((y : Try Fronting) × GivesText ps tried y) }
    ensures { ReadyFront result }
{
    left_by(tried)
}

impl<'a> Word<'a> {
    ghost use Rattle.definition.specs.Words.{Word as Letters};
    ghost use Rattle.snowball.specs.Chars.{started};
    ghost use Rattle.snowball.specs.Stands.{Stands};
    ghost use Rattle.arabic.specs.Endings.{Ready};

    fn new(bytes: &'a [u8]) -> Result<Word<'a>, BadWord> {
        check_word(bytes)?;
        Ok(Word { bytes })
    }

    // The word in a new environment, with the cursor in front and no change made.
    fn at_front(&self) -> Env
        ensures { (w : Letters) × ((ps : List ℕ) × (Stands result (started w ps) × (result.made ≡ 0))) }
    {
        Env::create(self.bytes)
    }

    // The same with the cursor at the end, as the endings are cut.
    fn at_end(&self) -> Env
        ensures { Ready result }
    {
        let mut env = self.at_front();
        env.limit_backward = env.cursor;
        env.cursor = env.limit;
        env
    }

    fn ending_rows(&self) -> [usize; 11] {
        [
            r_Suffix_Verb_Step1(self.at_end()).row,
            r_Suffix_Verb_Step2a(self.at_end()).row,
            r_Suffix_Verb_Step2b(self.at_end()).row,
            r_Suffix_Verb_Step2c(self.at_end()).row,
            r_Suffix_Noun_Step1b(self.at_end()).row,
            r_Suffix_Noun_Step2a(self.at_end()).row,
            r_Suffix_Noun_Step2b(self.at_end()).row,
            r_Suffix_Noun_Step2c1(self.at_end()).row,
            r_Suffix_Noun_Step2c2(self.at_end()).row,
            r_Suffix_Noun_Step3(self.at_end()).row,
            r_Suffix_All_alef_maqsura(self.at_end()).row,
        ]
    }

    fn front_rows(&self, mut context: Context) -> [usize; 6] {
        let first = r_Prefix_Step1(self.at_front());
        let second = r_Prefix_Step2(left_for_next(first.outcome));
        let noun_a = r_Prefix_Step3a_Noun(left_for_next(second.outcome));
        let noun_b = r_Prefix_Step3b_Noun(left_for_next(noun_a.outcome));
        let verb = r_Prefix_Step3_Verb(left_for_next(noun_b.outcome));
        let last = r_Prefix_Step4_Verb(left_for_next(verb.outcome), &mut context);
        [
            first.row, second.row, noun_a.row, noun_b.row, verb.row, last.row,
        ]
    }
}

// The rows, or the refusal of a word that no step gets.
pub fn write_rows(output: &mut impl Write, bytes: &[u8]) -> io::Result<()> {
    let word = match Word::new(bytes) {
        Ok(word) => word,
        Err(refusal) => return write!(output, "?{}", refusal.code()),
    };
    let kind = checked(word.bytes);
    write!(output, "{}", kind.row)?;
    for row in word.ending_rows() {
        write!(output, " {row}")?;
    }
    for row in word.front_rows(kind.outcome) {
        write!(output, " {row}")?;
    }
    Ok(())
}
