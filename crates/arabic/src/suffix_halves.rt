// A step that cuts an ending: the row and where the ending begins, read off the text, and then the cut.
ghost use Rattle.std.specs.Prelude.{◌≡◌, List, ℕ, ◌*◌, ◌≤◌, length, IfSome};
ghost use Rattle.definition.specs.Words.{Word};
ghost use Rattle.definition.specs.Endings.{SuffixStep, suffix, Cutting, cut};
ghost use Rattle.definition.specs.StepRow.{of_ending, step_row};
ghost use Rattle.utf8.specs.Spelt.{Encodes, Spelt};
ghost use Rattle.arabic.specs.Endings.{Ends, Ready, Gives, TakesEnding};
ghost use Rattle.arabic.specs.Changes.{suffix_number};
ghost use Rattle.arabic.specs.Tried.{IsRule};

use crate::changes::note;
use crate::tried::{Searched, Tried, met};
use snowball::among::find_among_b;
use snowball::env::Env;
use snowball::tables::{Among, Backward};

// What a step with this table and these guards finds at the end of the text: the row of its search, and where the ending begins that it takes.
pub fn ending(text: &[u8], table: &Among<'_, Backward>, guards: &[u8]) -> Searched<Option<usize>>
    requires { Spelt text.now }
    ensures within { IfSome result.outcome (λ place. place ≤ length text.now) }
    ensures takes_ending { (s : SuffixStep) → IsRule (suffix s) table.now.rows.now table.now.lens.now table.now.classes.now guards.now
        → (w : Word) → Encodes text.now w → TakesEnding s w (length text.now) result }
{
    let found = find_among_b(text, text.len(), 0, table);
    let taken = met(text, guards, found.class);
    Searched {
        row: found.row,
        outcome: taken.then_some(found.cursor),
    }
}

// A step that cuts, with this table, these guards and the first number of its changes. It deletes the ending that is found, and notes it:
// what slice_del does at the end of the text, where no byte moves. Where there is none it fails, and the environment is as it was. The cut
// is not a function of its own, where noting it would cost two more copies of the environment.
#[inline(always)]
pub fn suffix_step(
    mut env: Env,
    table: &Among<'_, Backward>,
    guards: &[u8],
    step: u8,
) -> Searched<Tried>
    requires { Ready env × ((s : SuffixStep) × (IsRule (suffix s) table.now.rows.now table.now.lens.now table.now.classes.now guards.now × (step ≡ 16 * suffix_number s))) }
    ensures { (s : SuffixStep) → IsRule (suffix s) table.now.rows.now table.now.lens.now table.now.classes.now guards.now → step ≡ 16 * suffix_number s
        → (ps : List ℕ) (v : Cutting) → Ends ps env v → Gives ps result.outcome (cut s v) × (result.row ≡ step_row (of_ending s) v.text) }
{
    let found = ending(env.text(), table, guards);
    let row = found.row;
    let Some(place) = found.outcome else {
        return Searched {
            row,
            outcome: Err(env),
        };
    };
    note(&mut env, step, row);
    env.ket = env.limit;
    env.bra = place;
    env.limit = place;
    env.cursor = place;
    Searched {
        row,
        outcome: Ok(env),
    }
}
