// The noun's alternatives of item 3: one function for each nest of them.
ghost use Rattle.std.specs.Prelude.{◌≡◌, List, ℕ};
ghost use Rattle.definition.specs.Tries.{done};
ghost use Rattle.definition.specs.Kind.{if_open};
ghost use Rattle.definition.specs.Endings.{Cutting, cut, noun_step2a, noun};
ghost use Rattle.arabic.specs.Endings.{Ends, Ready, Gives};
ghost use Rattle.arabic.specs.Kinds.{kind_of};
ghost use Rattle.arabic.specs.Nests.{after_step1b, by_step1b, noun_first};

use crate::suffix_steps::{
    r_Suffix_Noun_Step1b, r_Suffix_Noun_Step2a, r_Suffix_Noun_Step2b, r_Suffix_Noun_Step2c1,
    r_Suffix_Noun_Step2c2, r_Suffix_Noun_Step3,
};
use crate::tried::{Tried, left_by};
use snowball::env::Env;

// Behind Step1b: Step2a, else Step2b, else Step2c1.
fn after_Step1b(env: Env) -> Tried
    requires { Ready env }
    ensures { (ps : List ℕ) (v : Cutting) → Ends ps env v → Gives ps result (after_step1b v) }
{
    r_Suffix_Noun_Step2a(env)
        .outcome
        .or_else(|env| r_Suffix_Noun_Step2b(env).outcome)
        .or_else(|env| r_Suffix_Noun_Step2c1(env).outcome)
}

// Step1b and what follows it. Where that fails the cut of Step1b stays.
fn by_Step1b(env: Env) -> Tried
    requires { Ready env }
    ensures { (ps : List ℕ) (v : Cutting) → Ends ps env v → Gives ps result (by_step1b v) }
{
    r_Suffix_Noun_Step1b(env).outcome.and_then(after_Step1b)
}

// If the word is open, Step2a.
fn open_Step2a(env: Env, b_is_defined: bool) -> Tried
    requires { Ready env }
    ensures { (ps : List ℕ) (v : Cutting) → Ends ps env v → Gives ps result (if_open (kind_of b_is_defined) (cut noun_step2a) v) }
{
    if b_is_defined {
        return Err(env);
    }
    r_Suffix_Noun_Step2a(env).outcome
}

// The first alternative that succeeds; the last one, nothing, always does. The Rust's second one, Step1a with its sequel, is left out.
fn first_cut(env: Env, b_is_defined: bool) -> Env
    requires { Ready env }
    ensures { (ps : List ℕ) (v : Cutting) → Ends ps env v → (w : Cutting) × ((noun_first (kind_of b_is_defined) v ≡ done w) × Ends ps result w) }
{
    let tried = r_Suffix_Noun_Step2c2(env)
        .outcome
        .or_else(by_Step1b)
        .or_else(|env| open_Step2a(env, b_is_defined))
        .or_else(|env| r_Suffix_Noun_Step2b(env).outcome);
    left_by(tried)
}

// The noun: its first alternative, and then Step3.
#[inline(never)]
pub fn noun(env: Env, b_is_defined: bool) -> Tried
    requires { Ready env }
    ensures { (ps : List ℕ) (v : Cutting) → Ends ps env v → Gives ps result (noun (kind_of b_is_defined) v) }
{
    let cut = first_cut(env, b_is_defined);
    r_Suffix_Noun_Step3(cut).outcome
}
