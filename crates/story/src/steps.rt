// The lines of items 2 to 5, item by item.
ghost use Rattle.std.specs.Prelude.{◌≡◌, ◌≤◌, List, ℕ, length, take, drop};
ghost use Rattle.definition.specs.Words.{Word};
ghost use Rattle.definition.specs.Endings.{endings_leave};
ghost use Rattle.definition.specs.Fronts.{text, fronts};
ghost use Rattle.utf8.specs.Spelt.{Encodes, Spelt};
ghost use Rattle.places.specs.Places.{Typed, letters_of};
ghost use Rattle.snowball.specs.Chars.{started};
ghost use Rattle.snowball.specs.Stands.{longest_word, Stands};
ghost use Rattle.arabic.specs.Texts.{typed_text};
ghost use Rattle.arabic.specs.Contexts.{OneKind};
ghost use Rattle.arabic.specs.Kinds.{kind_by_verb, kind_of};
ghost use Rattle.history.specs.History.{last_of, but_last, stem_deeds, post_deeds};
ghost use Rattle.story.specs.Telling.{Tells, Fits, ending_deeds, front_deeds};

use crate::changes::tell_changes;
use crate::letters::{post_puts, pre_puts};
use crate::page::{Page, tell, tell_keys};
use arabic::context::{Context, checked};
use arabic::normalize::r_Normalize_pre;
use arabic::stem::{change_front, cut_endings};
use snowball::env::{Env, last_start};

// Item 3: the endings that are cut, and a last 0649. The answer is the environment that is left.
fn tell_endings(page: &mut Page, env: Env, context: Context) -> Env
    requires { OneKind context × ((w : Word) × ((ps : List ℕ) × (Stands env (started w ps) × Fits page.old (ending_deeds (kind_of context.b_is_defined) w)))) }
    ensures left { (w : Word) (ps : List ℕ) → Stands env (started w ps) → (qs : List ℕ) × Stands result (started (endings_leave (kind_of context.b_is_defined) w) qs) }
    ensures tells { (w : Word) (ps : List ℕ) → Stands env (started w ps) → Fits page.old (ending_deeds (kind_of context.b_is_defined) w)
        → Tells page.old (ending_deeds (kind_of context.b_is_defined) w) page.new }
{
    let cut = cut_endings(env, context);
    let left = cut.outcome.env;
    tell_changes(page, &left.changes[..left.made as usize]);
    if cut.row == 0 {
        tell(page, b"Suffix All alef maqsura", b"\xD9\x89", 1);
    }
    left
}

// Item 4: the fronts that are changed.
fn tell_fronts(page: &mut Page, env: Env, context: Context) -> Env
    requires { (w : Word) × ((ps : List ℕ) × (Stands env (started w ps) × Fits page.old (front_deeds (kind_by_verb context.b_is_verb) w))) }
    ensures left { (w : Word) (ps : List ℕ) → Stands env (started w ps) → (qs : List ℕ) × Stands result (started (text (fronts (kind_by_verb context.b_is_verb) w)) qs) }
    ensures tells { (w : Word) (ps : List ℕ) → Stands env (started w ps) → Fits page.old (front_deeds (kind_by_verb context.b_is_verb) w)
        → Tells page.old (front_deeds (kind_by_verb context.b_is_verb) w) page.new }
{
    let changed = change_front(env, context);
    tell_changes(page, &changed.changes[..changed.made as usize]);
    changed
}

// Where the last letter of a text begins; 0 where it has no letter.
fn last_letter(text: &[u8]) -> usize
    requires { Spelt text.now }
    ensures within { result ≤ length text.now }
    ensures parts { (w : Word) → Encodes text.now w → Encodes (take result text.now) (but_last w) × Encodes (drop result text.now) (last_of w) }
{
    let len = text.len();
    if len == 0 {
        return 0;
    }
    last_start(text, len)
}

// Item 5: the last letter, and then the others from the front on.
fn tell_post(page: &mut Page, text: &[u8])
    requires { (w : Word) × (Encodes text.now w × Fits page.old (post_deeds w)) }
    ensures { (w : Word) → Encodes text.now w → Fits page.old (post_deeds w) → Tells page.old (post_deeds w) page.new }
{
    let last = last_letter(text);
    tell_keys(page, &text[last..], b"Normalize post last", post_puts);
    tell_keys(page, &text[..last], b"Normalize post other", post_puts);
}

// Items 2 to 5, for a word of up to 255 bytes with no floating mark.
pub fn tell_items(page: &mut Page, env: Env)
    requires { (env.limit ≤ longest_word) × ((ts : List Typed) × (Stands env (typed_text ts) × Fits page.old (stem_deeds (letters_of ts)))) }
    ensures { (ts : List Typed) → Stands env (typed_text ts) → Fits page.old (stem_deeds (letters_of ts)) → Tells page.old (stem_deeds (letters_of ts)) page.new }
{
    let context = checked(env.text()).outcome;
    tell_keys(page, env.text(), b"Normalize pre", pre_puts);
    let normalised = r_Normalize_pre(env);
    let cut = tell_endings(page, normalised, context);
    let changed = tell_fronts(page, cut, context);
    tell_post(page, changed.text());
}
