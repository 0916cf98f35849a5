// Items 3, 4 and 5 with the cursor put where each begins, and `stem`: all of them, on an environment, with the number of endings cut.
ghost use Rattle.std.specs.Prelude.{◌≡◌, List, ℕ, ◌≤◌, length};
ghost use Rattle.definition.specs.Words.{Word};
ghost use Rattle.definition.specs.Tries.{after};
ghost use Rattle.definition.specs.Normal.{normalise};
ghost use Rattle.definition.specs.Endings.{endings, maqsura_if_failed};
ghost use Rattle.definition.specs.Fronts.{text, fronts};
ghost use Rattle.definition.specs.Finish.{finish};
ghost use Rattle.definition.specs.Stem.{cutting, stem_of, stem, chain};
ghost use Rattle.snowball.specs.Chars.{started};
ghost use Rattle.snowball.specs.Stands.{longest_word, Stands};
ghost use Rattle.places.specs.Places.{Typed, letters_of, normal_places, stem_places};
ghost use Rattle.arabic.specs.Changes.{front_numbers, Noted};
ghost use Rattle.arabic.specs.Endings.{left_of, EndingsCut};
ghost use Rattle.arabic.specs.Fronts.{front_places};
ghost use Rattle.arabic.specs.Contexts.{OneKind};
ghost use Rattle.arabic.specs.Kinds.{kind_by_verb, kind_of};
ghost use Rattle.arabic.specs.Texts.{typed_text, places_by};

use crate::context::{Context, checked};
use crate::normalize::{r_Normalize_post, r_Normalize_pre};
use crate::prefix_nest::prefixes;
use crate::suffix_nest::suffixes;
use crate::tried::{Counted, Searched, left_by};
use snowball::env::{Env, count_chars};

// Item 3: the endings, backward from the end of the text, and the row of the search for a last 0649. The cursor then goes back to the front.
#[inline(always)]
pub fn cut_endings(mut env: Env, context: Context) -> Searched<Counted>
    requires { ((w : Word) × ((ps : List ℕ) × Stands env (started w ps))) × OneKind context }
    ensures stands { (w : Word) (ps : List ℕ) → Stands env (started w ps)
        → Stands result.outcome.env (left_of ps (maqsura_if_failed (endings (kind_of context.b_is_defined) w) (after (endings (kind_of context.b_is_defined) w)).text)) }
    ensures cut { (w : Word) (ps : List ℕ) → Stands env (started w ps) → EndingsCut (endings (kind_of context.b_is_defined) w) result }
{
    env.made = 0; // no ending is cut yet
    env.limit_backward = env.cursor;
    env.cursor = env.limit;
    let mut cut = suffixes(env, context);
    cut.outcome.env.cursor = cut.outcome.env.limit_backward;
    cut
}

// Item 4: the fronts, with no ending among their changes. The cursor then goes back to the front.
#[inline(always)]
pub fn change_front(mut env: Env, context: Context) -> Env
    requires { (w : Word) × ((ps : List ℕ) × Stands env (started w ps)) }
    ensures stands { (w : Word) (ps : List ℕ) → Stands env (started w ps)
        → Stands result (started (text (fronts (kind_by_verb context.b_is_verb) w)) (front_places ps (fronts (kind_by_verb context.b_is_verb) w))) }
    ensures noted { (w : Word) (ps : List ℕ) → Stands env (started w ps) → Noted result (front_numbers (fronts (kind_by_verb context.b_is_verb) w).applied) }
{
    env.made = 0; // no front is changed yet
    let cursor = env.cursor;
    let mut changed = left_by(prefixes(env, context));
    changed.cursor = cursor;
    changed
}

// Item 5, with as many turns as the text has letters.
#[inline(always)]
pub fn finish_letters(env: Env) -> Env
    requires { (w : Word) × ((ps : List ℕ) × Stands env (started w ps)) }
    ensures { (w : Word) (ps : List ℕ) → Stands env (started w ps) → Stands result (started (finish w) ps) }
{
    let i_word_len = count_chars(env.text());
    r_Normalize_post(env, i_word_len)
}

// Items 2 to 5, for a word of up to 255 bytes whose kind is known.
fn stem_of(env: Env, context: Context) -> Counted
    requires { ((ts : List Typed) × Stands env (typed_text ts)) × (env.limit ≤ longest_word) × OneKind context }
    ensures { (ts : List Typed) → Stands env (typed_text ts)
        → Stands result.env (started (stem_of (kind_of context.b_is_defined) (normalise (letters_of ts))) (places_by (kind_of context.b_is_defined) (normalise (letters_of ts)) (normal_places ts)))
        × (result.endings ≡ length (cutting (kind_of context.b_is_defined) (normalise (letters_of ts))).cuts) }
{
    let normalised = r_Normalize_pre(env);
    let cut = cut_endings(normalised, context).outcome;
    let changed = change_front(cut.env, context);
    Counted {
        endings: cut.endings,
        env: finish_letters(changed),
    }
}

// The Rust's stem, on a new environment for a word of up to 255 bytes; and how many endings were cut.
pub fn stem(env: Env) -> Counted
    requires { ((ts : List Typed) × Stands env (typed_text ts)) × (env.limit ≤ longest_word) }
    ensures { (ts : List Typed) → Stands env (typed_text ts)
        → Stands result.env (started (stem (letters_of ts)) (stem_places ts)) × (result.endings ≡ length (chain (letters_of ts))) }
{
    let context = checked(env.text()).outcome;
    stem_of(env, context)
}
