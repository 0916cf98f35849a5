// Item 4 whole: Step1, Step2, and then the first of three alternatives.
ghost use Rattle.std.specs.Prelude.{List, ℕ};
ghost use Rattle.definition.specs.Words.{Word};
ghost use Rattle.definition.specs.Kind.{if_open};
ghost use Rattle.definition.specs.Fronts.{Fronting, prefix_steps, started};
ghost use Rattle.arabic.specs.Fronts.{AtFront, Fronts, ReadyFront, ReadyStart, GivesPassed};
ghost use Rattle.arabic.specs.Kinds.{kind_by_verb};
ghost use Rattle.arabic.specs.Nests.{verb_steps, prefix_step3};

use crate::context::{Context, r_Prefix_Step4_Verb};
use crate::prefix_steps::{
    r_Prefix_Step1, r_Prefix_Step2, r_Prefix_Step3_Verb, r_Prefix_Step3a_Noun, r_Prefix_Step3b_Noun,
};
use crate::tried::{Tried, left_by};
use snowball::env::Env;

// If the word is open, Step3_Verb, whether it succeeds or not, and then Step4_Verb where the cursor stands.
fn open_verb_steps(env: Env, mut context: Context) -> Tried
    requires { ReadyFront env }
    ensures { (ps : List ℕ) (w : Fronting) → Fronts ps env w → GivesPassed ps result (if_open (kind_by_verb context.b_is_verb) verb_steps w) }
{
    if context.b_is_verb {
        let stepped = left_by(r_Prefix_Step3_Verb(env).outcome);
        return r_Prefix_Step4_Verb(stepped, &mut context).outcome;
    }
    Err(env)
}

// The first of the three alternatives of Step3; the last is for open words alone.
fn prefix_Step3(env: Env, context: Context) -> Tried
    requires { ReadyFront env }
    ensures { (ps : List ℕ) (w : Fronting) → Fronts ps env w → GivesPassed ps result (prefix_step3 (kind_by_verb context.b_is_verb) w) }
{
    r_Prefix_Step3a_Noun(env)
        .outcome
        .or_else(|env| r_Prefix_Step3b_Noun(env).outcome)
        .or_else(|env| open_verb_steps(env, context))
}

// Step1 and Step2, whether they succeed or not, and then Step3.
#[inline(always)]
pub fn prefixes(env: Env, context: Context) -> Tried
    requires { ReadyStart env }
    ensures { (ps : List ℕ) (w : Word) → AtFront ps env (started w) → GivesPassed ps result (prefix_steps (kind_by_verb context.b_is_verb) (started w)) }
{
    let first = left_by(r_Prefix_Step1(env).outcome);
    let second = left_by(r_Prefix_Step2(first).outcome);
    prefix_Step3(second, context)
}
