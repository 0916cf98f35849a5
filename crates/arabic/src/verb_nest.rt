// The verb's alternatives of item 3: one function for each nest of them.
ghost use Rattle.std.specs.Prelude.{◌≡◌, List, ℕ, ◌≤◌, length};
ghost use Rattle.definition.specs.Tries.{done, and_then, again};
ghost use Rattle.definition.specs.Endings.{Cutting, cut, verb_step1, verb};
ghost use Rattle.arabic.specs.Endings.{Ends, Ready, Gives};
ghost use Rattle.arabic.specs.Nests.{after_step1};

use crate::suffix_steps::{
    r_Suffix_Verb_Step1, r_Suffix_Verb_Step2a, r_Suffix_Verb_Step2b, r_Suffix_Verb_Step2c,
};
use crate::tried::{Tried, left_by};
use snowball::env::Env;

// The Rust's `atleast` loop: Step1 as often as it cuts.
fn repeat_Step1(env: Env) -> Env
    requires { Ready env }
    ensures { (ps : List ℕ) (v : Cutting) → Ends ps env v → (n : ℕ) → length v.text ≤ n → (w : Cutting) × ((again n (cut verb_step1) v ≡ done w) × Ends ps result w) }
{
    let mut e = env;
    loop {
        match r_Suffix_Verb_Step1(e).outcome {
            Ok(cut) => e = cut,
            Err(uncut) => return uncut,
        }
    }
}

// After at least one cut by Step1: Step2a, else Step2c, else nothing, which stands in place of the Rust's `next` (docs/DECISIONS.md, 18).
fn after_Step1(env: Env) -> Env
    requires { Ready env }
    ensures { (ps : List ℕ) (v : Cutting) → Ends ps env v → (w : Cutting) × ((after_step1 v ≡ done w) × Ends ps result w) }
{
    let tried = r_Suffix_Verb_Step2a(env)
        .outcome
        .or_else(|env| r_Suffix_Verb_Step2c(env).outcome);
    left_by(tried)
}

// Behind a cut by Step1: Step1 as often as it cuts, and what follows it.
#[inline(never)]
fn behind_Step1(env: Env) -> Env
    requires { Ready env }
    ensures { (ps : List ℕ) (v : Cutting) → Ends ps env v → (n : ℕ) → length v.text ≤ n → (w : Cutting) × ((and_then (again n (cut verb_step1) v) after_step1 ≡ done w) × Ends ps result w) }
{
    let repeated = repeat_Step1(env);
    after_Step1(repeated)
}

// The verb of an open word: Step1 and what follows it, else Step2b, else Step2a.
pub fn verb(env: Env) -> Tried
    requires { Ready env }
    ensures { (ps : List ℕ) (v : Cutting) → Ends ps env v → Gives ps result (verb v) }
{
    r_Suffix_Verb_Step1(env)
        .outcome
        .map(behind_Step1)
        .or_else(|env| r_Suffix_Verb_Step2b(env).outcome)
        .or_else(|env| r_Suffix_Verb_Step2a(env).outcome)
}
