// The steps of item 3, each under its Rust name: ten that cut, each a table, its guards by class and the first number of its changes,
// and the last 0649.
ghost use Rattle.std.specs.Prelude.{◌≡◌, List, ℕ};
ghost use Rattle.definition.specs.Words.{Word};
ghost use Rattle.definition.specs.Endings.{Cutting, cut, verb_step1, verb_step2a, verb_step2b, verb_step2c, noun_step1b, noun_step2a, noun_step2b, noun_step2c1, noun_step2c2, noun_step3, suffix_all_alef_maqsura};
ghost use Rattle.definition.specs.StepRow.{of_ending, alef_maqsura, step_row};
ghost use Rattle.snowball.specs.Stands.{Stands};
ghost use Rattle.arabic.specs.Endings.{Ends, Ready, Gives, at_end};

use crate::suffix_halves::suffix_step;
use crate::tried::{Searched, Tried};
use crate::{changes, tables};
use snowball::among::find_among_b;
use snowball::env::Env;

pub fn r_Suffix_Verb_Step1(env: Env) -> Searched<Tried>
    requires { Ready env }
    ensures { (ps : List ℕ) (v : Cutting) → Ends ps env v → Gives ps result.outcome (cut verb_step1 v) × (result.row ≡ step_row (of_ending verb_step1) v.text) }
{
    suffix_step(env, &tables::A_17, &[4, 5, 6], changes::VERB_STEP1)
}

pub fn r_Suffix_Verb_Step2a(env: Env) -> Searched<Tried>
    requires { Ready env }
    ensures { (ps : List ℕ) (v : Cutting) → Ends ps env v → Gives ps result.outcome (cut verb_step2a v) × (result.row ≡ step_row (of_ending verb_step2a) v.text) }
{
    suffix_step(env, &tables::A_18, &[4, 4, 5, 6, 6], changes::VERB_STEP2A)
}

pub fn r_Suffix_Verb_Step2b(env: Env) -> Searched<Tried>
    requires { Ready env }
    ensures { (ps : List ℕ) (v : Cutting) → Ends ps env v → Gives ps result.outcome (cut verb_step2b v) × (result.row ≡ step_row (of_ending verb_step2b) v.text) }
{
    suffix_step(env, &tables::A_19, &[5], changes::VERB_STEP2B)
}

pub fn r_Suffix_Verb_Step2c(env: Env) -> Searched<Tried>
    requires { Ready env }
    ensures { (ps : List ℕ) (v : Cutting) → Ends ps env v → Gives ps result.outcome (cut verb_step2c v) × (result.row ≡ step_row (of_ending verb_step2c) v.text) }
{
    suffix_step(env, &tables::A_20, &[4, 6], changes::VERB_STEP2C)
}

// r_Suffix_Noun_Step1a of the Rust, with its table A_10, is left out: it cuts in no word, as the crate old_noun shows.

pub fn r_Suffix_Noun_Step1b(env: Env) -> Searched<Tried>
    requires { Ready env }
    ensures { (ps : List ℕ) (v : Cutting) → Ends ps env v → Gives ps result.outcome (cut noun_step1b v) × (result.row ≡ step_row (of_ending noun_step1b) v.text) }
{
    suffix_step(env, &tables::A_11, &[6], changes::NOUN_STEP1B)
}

pub fn r_Suffix_Noun_Step2a(env: Env) -> Searched<Tried>
    requires { Ready env }
    ensures { (ps : List ℕ) (v : Cutting) → Ends ps env v → Gives ps result.outcome (cut noun_step2a v) × (result.row ≡ step_row (of_ending noun_step2a) v.text) }
{
    suffix_step(env, &tables::A_12, &[5], changes::NOUN_STEP2A)
}

pub fn r_Suffix_Noun_Step2b(env: Env) -> Searched<Tried>
    requires { Ready env }
    ensures { (ps : List ℕ) (v : Cutting) → Ends ps env v → Gives ps result.outcome (cut noun_step2b v) × (result.row ≡ step_row (of_ending noun_step2b) v.text) }
{
    suffix_step(env, &tables::A_13, &[5], changes::NOUN_STEP2B)
}

pub fn r_Suffix_Noun_Step2c1(env: Env) -> Searched<Tried>
    requires { Ready env }
    ensures { (ps : List ℕ) (v : Cutting) → Ends ps env v → Gives ps result.outcome (cut noun_step2c1 v) × (result.row ≡ step_row (of_ending noun_step2c1) v.text) }
{
    suffix_step(env, &tables::A_14, &[4], changes::NOUN_STEP2C1)
}

pub fn r_Suffix_Noun_Step2c2(env: Env) -> Searched<Tried>
    requires { Ready env }
    ensures { (ps : List ℕ) (v : Cutting) → Ends ps env v → Gives ps result.outcome (cut noun_step2c2 v) × (result.row ≡ step_row (of_ending noun_step2c2) v.text) }
{
    suffix_step(env, &tables::A_15, &[4], changes::NOUN_STEP2C2)
}

pub fn r_Suffix_Noun_Step3(env: Env) -> Searched<Tried>
    requires { Ready env }
    ensures { (ps : List ℕ) (v : Cutting) → Ends ps env v → Gives ps result.outcome (cut noun_step3 v) × (result.row ≡ step_row (of_ending noun_step3) v.text) }
{
    suffix_step(env, &tables::A_16, &[3], changes::NOUN_STEP3)
}

// A last 0649 becomes 064A. The Rust's answer, which its caller does not use, is left out. The cursor stays at the end of the text: the
// Rust's search leaves it in front of the letter, and its caller puts it to the end.
pub fn r_Suffix_All_alef_maqsura(mut env: Env) -> Searched<Env>
    requires { Ready env }
    ensures text { (ps : List ℕ) (w : Word) → Stands env (at_end ps w) → Stands result.outcome (at_end ps (suffix_all_alef_maqsura w)) × (result.row ≡ step_row alef_maqsura w) }
    ensures changes { (result.outcome.made ≡ env.made) × (result.outcome.changes ≡ env.changes) }
{
    let found = find_among_b(env.text(), env.limit, 0, &tables::A_21);
    let row = found.row;
    if found.class == 0 {
        return Searched { row, outcome: env };
    }
    env.ket = env.cursor;
    env.bra = found.cursor;
    Searched {
        row,
        outcome: env.slice_from(b"\xD9\x8A"),
    }
}
