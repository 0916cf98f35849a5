// The steps of item 4, each a table, its guards by class, what stands for the row by class, and the first number of its changes. All
// but the last, which also has flags to store, are under their Rust names.
ghost use Rattle.std.specs.Prelude.{◌≡◌, List, ℕ};
ghost use Rattle.definition.specs.Words.{Word};
ghost use Rattle.definition.specs.Fronts.{Fronting, prefix_step1, prefix_step2, prefix_step3a_noun, prefix_step3b_noun, prefix_step3_verb, prefix_step4_verb, apply, started};
ghost use Rattle.definition.specs.StepRow.{of_front, step_row};
ghost use Rattle.arabic.specs.Fronts.{FirstKept, AtFront, Fronts, Passed, ReadyFront, ReadyPassed, ReadyStart, GivesFront, GivesThird, GivesPassed};

use crate::prefix_halves::{TakenRow, front_row, prefix_step, replace_front};
use crate::tried::{Searched, Tried};
use crate::{changes, tables};
use snowball::env::{Env, stands_at};

// Whether Step1 takes the row 0623 0624, which alone has class 3.
fn first_kept(outcome: Option<TakenRow>) -> bool
    ensures { FirstKept outcome result }
{
    outcome.is_some_and(|taken| taken.class == 3)
}

// Only at the start of the text. Of the row's two letters the second keeps its place, as everywhere; but of 0623 0624 the first
// does: it lends its place to the second.
pub fn r_Prefix_Step1(mut env: Env) -> Searched<Tried>
    requires { ReadyStart env }
    ensures { (ps : List ℕ) (w : Word) → AtFront ps env (started w) → GivesFront ps result.outcome (apply prefix_step1 (started w)) × (result.row ≡ step_row (of_front prefix_step1) w) }
{
    let found = front_row(env.text(), env.cursor, &tables::A_4, &[4, 4, 4, 4, 4]);
    if first_kept(found.outcome) {
        env.places[env.cursor + 2] = env.places[env.cursor];
    }
    replace_front(
        env,
        found,
        &[
            b"\xD8\xA3",
            b"\xD8\xA2",
            b"\xD8\xA3",
            b"\xD8\xA7",
            b"\xD8\xA5",
        ],
        changes::PREFIX_STEP1,
    )
}

pub fn r_Prefix_Step2(env: Env) -> Searched<Tried>
    requires { ReadyFront env }
    ensures { (ps : List ℕ) (w : Fronting) → Fronts ps env w → GivesFront ps result.outcome (apply prefix_step2 w) × (result.row ≡ step_row (of_front prefix_step2) w.rest) }
{
    if stands_at(env.text(), env.cursor, b"\xD9\x81\xD8\xA7") {
        return Searched {
            row: tables::A_5.rows.len(),
            outcome: Err(env),
        };
    }
    if stands_at(env.text(), env.cursor, b"\xD9\x88\xD8\xA7") {
        return Searched {
            row: tables::A_5.rows.len(),
            outcome: Err(env),
        };
    }
    prefix_step(
        env,
        &tables::A_5,
        &[4, 4],
        &[b"", b""],
        changes::PREFIX_STEP2,
    )
}

pub fn r_Prefix_Step3a_Noun(env: Env) -> Searched<Tried>
    requires { ReadyFront env }
    ensures { (ps : List ℕ) (w : Fronting) → Fronts ps env w → GivesThird ps result.outcome (apply prefix_step3a_noun w) × (result.row ≡ step_row (of_front prefix_step3a_noun) w.rest) }
{
    prefix_step(
        env,
        &tables::A_6,
        &[6, 5],
        &[b"", b""],
        changes::PREFIX_STEP3A_NOUN,
    )
}

pub fn r_Prefix_Step3b_Noun(env: Env) -> Searched<Tried>
    requires { ReadyFront env }
    ensures { (ps : List ℕ) (w : Fronting) → Fronts ps env w → GivesThird ps result.outcome (apply prefix_step3b_noun w) × (result.row ≡ step_row (of_front prefix_step3b_noun) w.rest) }
{
    if stands_at(env.text(), env.cursor, b"\xD8\xA8\xD8\xA7") {
        return Searched {
            row: tables::A_7.rows.len(),
            outcome: Err(env),
        };
    }
    prefix_step(
        env,
        &tables::A_7,
        &[4, 4, 4],
        &[b"", b"\xD8\xA8", b"\xD9\x83"],
        changes::PREFIX_STEP3B_NOUN,
    )
}

pub fn r_Prefix_Step3_Verb(env: Env) -> Searched<Tried>
    requires { ReadyFront env }
    ensures { (ps : List ℕ) (w : Fronting) → Fronts ps env w → GivesThird ps result.outcome (apply prefix_step3_verb w) × (result.row ≡ step_row (of_front prefix_step3_verb) w.rest) }
{
    prefix_step(
        env,
        &tables::A_8,
        &[5, 5, 5, 5],
        &[b"\xD9\x8A", b"\xD8\xAA", b"\xD9\x86", b"\xD8\xA3"],
        changes::PREFIX_STEP3_VERB,
    )
}

// What r_Prefix_Step4_Verb of `context` does to the text; the flags are stored there.
pub fn replace_Prefix_Step4_Verb(env: Env) -> Searched<Tried>
    requires { ReadyPassed env }
    ensures { (ps : List ℕ) (w : Fronting) → Passed ps env w → GivesPassed ps result.outcome (apply prefix_step4_verb w) × (result.row ≡ step_row (of_front prefix_step4_verb) w.rest) }
{
    prefix_step(
        env,
        &tables::A_9,
        &[5],
        &[b"\xD8\xA7\xD8\xB3\xD8\xAA"],
        changes::PREFIX_STEP4_VERB,
    )
}
