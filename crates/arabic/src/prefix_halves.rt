// The two halves of a step that changes the front: the row and whether the step takes it, read off the text, and what replaces the row.
ghost use Rattle.std.specs.Prelude.{◌≡◌, false, List, ℕ, ◌*◌, ◌≤◌, length, drop};
ghost use Rattle.definition.specs.Words.{Word};
ghost use Rattle.definition.specs.Fronts.{PrefixStep, prefix, not_at, Fronting, text, begins_with_any, apply};
ghost use Rattle.definition.specs.StepRow.{of_front, step_row};
ghost use Rattle.utf8.specs.Utf8.{encode};
ghost use Rattle.utf8.specs.Spelt.{Encodes, Spelt};
ghost use Rattle.arabic.specs.Changes.{prefix_number};
ghost use Rattle.arabic.specs.Fronts.{AtFront, GivesText, Takes, Puts, ChangesInPlace};
ghost use Rattle.arabic.specs.Tried.{IsRule};

use crate::changes::note;
use crate::tried::{Searched, Tried, met};
use snowball::among::find_among;
use snowball::env::Env;
use snowball::tables::{Among, Forward};

// The row that a step takes: its class, and the cursor behind it.
#[derive(Clone, Copy)]
pub struct TakenRow {
    pub class: u8,
    pub cursor: usize,
}

// What a step with this table and these guards finds at the cursor: the row of its search, and the row that it takes.
pub fn front_row(
    text: &[u8],
    cursor: usize,
    table: &Among<'_, Forward>,
    guards: &[u8],
) -> Searched<Option<TakenRow>>
    requires { Spelt text.now × (cursor ≤ length text.now) }
    ensures { (s : PrefixStep) → IsRule (prefix s) table.now.rows.now table.now.lens.now table.now.classes.now guards.now
        → (t rest : Word) → text.now ≡ encode t → Encodes (drop cursor text.now) rest → Takes s t rest cursor result }
{
    let found = find_among(text, cursor, text.len(), table);
    let class = found.class;
    let taken = met(text, guards, class);
    Searched {
        row: found.row,
        outcome: taken.then_some(TakenRow {
            class,
            cursor: found.cursor,
        }),
    }
}

// Replaces the row at the cursor by what stands for its class, and notes it; the cursor goes behind it. With no row the step fails.
#[inline(always)]
pub fn replace_front(
    mut env: Env,
    found: Searched<Option<TakenRow>>,
    puts: &[&[u8]],
    step: u8,
) -> Searched<Tried>
    requires { (s : PrefixStep) × ((w : Fronting) × (((ps : List ℕ) × AtFront ps env w) × (Takes s (text w) w.rest env.cursor found × Puts s puts.now × (step ≡ 16 * prefix_number s)))) }
    ensures { (s : PrefixStep) (ps : List ℕ) (w : Fronting) → AtFront ps env w → Takes s (text w) w.rest env.cursor found → Puts s puts.now → step ≡ 16 * prefix_number s
        → begins_with_any w.rest (not_at s) ≡ false → ChangesInPlace ps s w → GivesText ps result.outcome (apply s w) × (result.row ≡ step_row (of_front s) w.rest) }
{
    let row = found.row;
    let Some(taken) = found.outcome else {
        return Searched {
            row,
            outcome: Err(env),
        };
    };
    let put = puts[usize::from(taken.class - 1)];
    note(&mut env, step, row);
    env.bra = env.cursor;
    env.cursor = taken.cursor;
    env.ket = taken.cursor;
    Searched {
        row,
        outcome: Ok(env.slice_from(put)),
    }
}

// A step that changes the front, with this table, these guards, what it puts for each class and the first number of its changes.
#[inline(always)]
pub fn prefix_step(
    env: Env,
    table: &Among<'_, Forward>,
    guards: &[u8],
    puts: &[&[u8]],
    step: u8,
) -> Searched<Tried>
    requires { (s : PrefixStep) × ((w : Fronting) × (((ps : List ℕ) × AtFront ps env w) × (IsRule (prefix s) table.now.rows.now table.now.lens.now table.now.classes.now guards.now × Puts s puts.now × (step ≡ 16 * prefix_number s)))) }
    ensures { (s : PrefixStep) (ps : List ℕ) (w : Fronting) → AtFront ps env w → IsRule (prefix s) table.now.rows.now table.now.lens.now table.now.classes.now guards.now → Puts s puts.now → step ≡ 16 * prefix_number s
        → begins_with_any w.rest (not_at s) ≡ false → ChangesInPlace ps s w → GivesText ps result.outcome (apply s w) × (result.row ≡ step_row (of_front s) w.rest) }
{
    let found = front_row(env.text(), env.cursor, table, guards);
    replace_front(env, found, puts, step)
}
