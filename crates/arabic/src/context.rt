// The Rust's context, lent to the two functions that store in it.
ghost use Rattle.std.specs.Prelude.{◌≡◌, List, ℕ, is_ok};
ghost use Rattle.definition.specs.Words.{Word};
ghost use Rattle.definition.specs.Kind.{kind};
ghost use Rattle.definition.specs.Fronts.{Fronting, prefix_step4_verb, apply};
ghost use Rattle.definition.specs.StepRow.{kind_check, of_front, step_row};
ghost use Rattle.utf8.specs.Spelt.{Encodes, Spelt};
ghost use Rattle.arabic.specs.Kinds.{flags};
ghost use Rattle.arabic.specs.Contexts.{started, flagged, made_verb};
ghost use Rattle.arabic.specs.Fronts.{Passed, ReadyPassed, GivesPassed};

use crate::kind::kind_of;
use crate::prefix_steps::replace_Prefix_Step4_Verb;
use crate::tried::{Searched, Tried};
use snowball::env::Env;

// The Rust's context: what the word can be, and a letter count.
#[derive(Clone, Copy)]
pub struct Context {
    pub b_is_defined: bool,
    pub b_is_verb: bool,
    pub b_is_noun: bool,
    pub i_word_len: usize,
}

impl Context {
    // The context that the Rust starts with.
    const STARTED: Context = Context {
        b_is_defined: false,
        b_is_verb: true,
        b_is_noun: true,
        i_word_len: 0,
    };
}

// The Rust's r_Checks1: stores the kind's three flags in the lent context, and answers the row of its search. The Rust's answer, which its
// caller does not use, is left out.
pub fn r_Checks1(text: &[u8], context: &mut Context) -> usize
    requires { Spelt text.now }
    ensures { (w : Word) → Encodes text.now w → (context.new ≡ flagged context.old (flags (kind w))) × (result ≡ step_row kind_check w) }
{
    let k = kind_of(text);
    let kind = k.outcome;
    context.b_is_defined = kind.defined;
    context.b_is_verb = kind.verb;
    context.b_is_noun = kind.noun;
    k.row
}

// The kind check, from the context that the Rust starts with: the row of its search, and the context after it.
pub fn checked(text: &[u8]) -> Searched<Context>
    requires { Spelt text.now }
    ensures { (w : Word) → Encodes text.now w → (result.outcome ≡ flagged started (flags (kind w))) × (result.row ≡ step_row kind_check w) }
{
    let mut context = Context::STARTED;
    let row = r_Checks1(text, &mut context);
    Searched {
        row,
        outcome: context,
    }
}

// The Rust's r_Prefix_Step4_Verb: where the step succeeds, the lent context becomes that of a verb and no noun.
pub fn r_Prefix_Step4_Verb(env: Env, context: &mut Context) -> Searched<Tried>
    requires { ReadyPassed env }
    ensures { ((ps : List ℕ) (w : Fronting) → Passed ps env w → GivesPassed ps result.outcome (apply prefix_step4_verb w) × (result.row ≡ step_row (of_front prefix_step4_verb) w.rest)) × (context.new ≡ made_verb context.old (is_ok result.outcome)) }
{
    let stepped = replace_Prefix_Step4_Verb(env);
    if stepped.outcome.is_ok() {
        context.b_is_verb = true;
        context.b_is_noun = false;
    }
    stepped
}
