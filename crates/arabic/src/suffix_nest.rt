// Item 3 whole: the verb, else the noun, else a last 0649.
ghost use Rattle.std.specs.Prelude.{◌≡◌, List, ℕ, length};
ghost use Rattle.definition.specs.Words.{Word};
ghost use Rattle.definition.specs.Tries.{after, if_failed};
ghost use Rattle.definition.specs.Kind.{if_open};
ghost use Rattle.definition.specs.Endings.{Cutting, uncut, verb, noun, endings, maqsura_if_failed};
ghost use Rattle.snowball.specs.Stands.{Stands};
ghost use Rattle.arabic.specs.Contexts.{OneKind};
ghost use Rattle.arabic.specs.Endings.{Ends, Ready, Gives, at_end, EndingsCut};
ghost use Rattle.arabic.specs.Kinds.{kind_by_verb, kind_of};

use crate::context::Context;
use crate::noun_nest::noun;
use crate::suffix_steps::r_Suffix_All_alef_maqsura;
use crate::tables;
use crate::tried::{Counted, Searched, Tried};
use crate::verb_nest::verb;
use snowball::env::Env;

// If the word is open, the verb.
fn open_verb(env: Env, b_is_verb: bool) -> Tried
    requires { Ready env }
    ensures { (ps : List ℕ) (v : Cutting) → Ends ps env v → Gives ps result (if_open (kind_by_verb b_is_verb) verb v) }
{
    if b_is_verb {
        return verb(env);
    }
    Err(env)
}

// The verb of an open word, else the noun.
#[inline(never)]
pub fn verb_or_noun(env: Env, context: Context) -> Tried
    requires { Ready env × OneKind context }
    ensures { (ps : List ℕ) (v : Cutting) → Ends ps env v → Gives ps result (if_failed (if_open (kind_of context.b_is_defined) verb v) (noun (kind_of context.b_is_defined))) }
{
    open_verb(env, context.b_is_verb).or_else(|env| noun(env, context.b_is_defined))
}

// The verb or the noun, and a last 0649 where both have failed. Every ending cut is noted and counts, also before a step that fails. The
// row is that of the search for the last 0649.
pub fn suffixes(env: Env, context: Context) -> Searched<Counted>
    requires { Ready env × OneKind context }
    ensures stands { (ps : List ℕ) (w : Word) → Ends ps env (uncut w)
        → Stands result.outcome.env (at_end ps (maqsura_if_failed (endings (kind_of context.b_is_defined) w) (after (endings (kind_of context.b_is_defined) w)).text)) }
    ensures cut { (ps : List ℕ) (w : Word) → Ends ps env (uncut w) → EndingsCut (endings (kind_of context.b_is_defined) w) result }
{
    match verb_or_noun(env, context) {
        Ok(env) => Searched {
            row: tables::A_21.rows.len(),
            outcome: Counted {
                endings: env.made,
                env,
            },
        },
        Err(env) => {
            let endings = env.made;
            let changed = r_Suffix_All_alef_maqsura(env);
            Searched {
                row: changed.row,
                outcome: Counted {
                    endings,
                    env: changed.outcome,
                },
            }
        }
    }
}
