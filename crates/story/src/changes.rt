// The lines of the changes that an environment has noted: those of the endings and the fronts.
ghost use Rattle.std.specs.Prelude.{◌≡◌, List, [], ◌∷◌, ◌<◌, ◌≤◌, length};
ghost use Rattle.utf8.specs.Spelt.{Encodes};
ghost use Rattle.history.specs.Steps.{Deed, by, name, row_of, put};
ghost use Rattle.story.specs.Telling.{Tells, Fits, noted_step, InStep, NotedAs, AllNoted};

use crate::page::{Page, tell};
use arabic::tables;

// The steps' names, by their numbers.
static NAMES: [&[u8]; 16] = [
    b"Suffix Verb Step1",
    b"Suffix Verb Step2a",
    b"Suffix Verb Step2b",
    b"Suffix Verb Step2c",
    b"Suffix Noun Step1b",
    b"Suffix Noun Step2a",
    b"Suffix Noun Step2b",
    b"Suffix Noun Step2c1",
    b"Suffix Noun Step2c2",
    b"Suffix Noun Step3",
    b"Prefix Step1",
    b"Prefix Step2",
    b"Prefix Step3a Noun",
    b"Prefix Step3b Noun",
    b"Prefix Step3 Verb",
    b"Prefix Step4 Verb",
];

// The name of a step.
fn step_name(step: u8) -> &'static [u8]
    requires { step < 16 }
    ensures { result.now ≡ name (noted_step step) }
{
    NAMES[usize::from(step)]
}

// The letters of a row of a step of the verb.
fn verb_letters(step: u8, row: usize) -> &'static [u8]
    requires { InStep step row × (step ≤ 3) }
    ensures { Encodes result.now (row_of (by (noted_step step) row)) }
{
    match step {
        0 => tables::A_17.row(row),
        1 => tables::A_18.row(row),
        2 => tables::A_19.row(row),
        _ => tables::A_20.row(row),
    }
}

// Of a step of the noun.
fn noun_letters(step: u8, row: usize) -> &'static [u8]
    requires { InStep step row × (4 ≤ step) × (step ≤ 9) }
    ensures { Encodes result.now (row_of (by (noted_step step) row)) }
{
    match step {
        4 => tables::A_11.row(row),
        5 => tables::A_12.row(row),
        6 => tables::A_13.row(row),
        7 => tables::A_14.row(row),
        8 => tables::A_15.row(row),
        _ => tables::A_16.row(row),
    }
}

// Of a step of the fronts.
fn front_letters(step: u8, row: usize) -> &'static [u8]
    requires { InStep step row × (10 ≤ step) }
    ensures { Encodes result.now (row_of (by (noted_step step) row)) }
{
    match step {
        10 => tables::A_4.row(row),
        11 => tables::A_5.row(row),
        12 => tables::A_6.row(row),
        13 => tables::A_7.row(row),
        14 => tables::A_8.row(row),
        _ => tables::A_9.row(row),
    }
}

// The letters of a row of a step.
fn row_letters(step: u8, row: usize) -> &'static [u8]
    requires { InStep step row }
    ensures { Encodes result.now (row_of (by (noted_step step) row)) }
{
    match step {
        0..=3 => verb_letters(step, row),
        4..=9 => noun_letters(step, row),
        _ => front_letters(step, row),
    }
}

// How many letters a step puts for a row: one in the fronts' Step1 and Step3_Verb and for the rows of Step3b_Noun but the first, three in
// Step4_Verb, and else none.
fn letters_put(step: u8, row: usize) -> usize
    requires { InStep step row }
    ensures { result ≡ length (put (by (noted_step step) row)) }
{
    match step {
        10 => 1,
        13 => row.min(1),
        14 => 1,
        15 => 3,
        _ => 0,
    }
}

// Writes the line of a change, which is 16 times its step and its row.
fn tell_change(page: &mut Page, change: u8)
    requires { (d : Deed) × (NotedAs d change × Fits page.old (d ∷ [])) }
    ensures { (d : Deed) → NotedAs d change → Fits page.old (d ∷ []) → Tells page.old (d ∷ []) page.new }
{
    let step = change / 16;
    let row = usize::from(change % 16);
    tell(
        page,
        step_name(step),
        row_letters(step, row),
        letters_put(step, row),
    );
}

// Writes the lines of changes, in their order.
pub fn tell_changes(page: &mut Page, changes: &[u8])
    requires { (ds : List Deed) × (AllNoted ds changes.now × Fits page.old ds) }
    ensures { (ds : List Deed) → AllNoted ds changes.now → Fits page.old ds → Tells page.old ds page.new }
{
    for &change in changes {
        tell_change(page, change);
    }
}
