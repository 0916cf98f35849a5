// What several steps use: the answers of steps, and the least number of letters by class.
ghost use Rattle.std.specs.Prelude.{◌≡◌, length};
ghost use Rattle.definition.specs.Words.{Word};
ghost use Rattle.definition.specs.Search.{least_letters, met};
ghost use Rattle.utf8.specs.Utf8.{encode};
ghost use Rattle.snowball.specs.Stands.{handed_back};

use snowball::env::{Env, has_chars};

// The environment after a step: Ok where the step succeeded, Err where it failed. What a step did before it failed stays done.
pub type Tried = Result<Env, Env>;

// What is made of one search: the number of the row that the search found, and the outcome. With no row it is the number of rows, also
// where a step ended before it searched.
#[derive(Drop)]
pub struct Searched<T> {
    pub row: usize,
    pub outcome: T,
}

// An environment, which has noted the endings cut on the way to it, and their number.
#[derive(Drop)]
pub struct Counted {
    pub endings: u32,
    pub env: Env,
}

// The least number of letters for a class, from class 1 on; 0 for a class that has none.
pub fn least_letters(guards: &[u8], class: u8) -> usize
    ensures { result ≡ least_letters guards.now class }
{
    class
        .checked_sub(1)
        .and_then(|k| guards.get(usize::from(k)))
        .map_or(0, |least| usize::from(*least))
}

// Whether a text has enough letters for a class. Class 0, which stands for no row, has never enough.
pub fn met(text: &[u8], guards: &[u8], class: u8) -> bool
    ensures { (w : Word) → text.now ≡ encode w → result ≡ met guards.now class (length w) }
{
    class != 0 && has_chars(text, least_letters(guards, class))
}

// The environment that a step leaves, whether it succeeds or not. One arm for both is slower (docs/DECISIONS.md, 33).
#[inline(always)]
pub fn left_by(tried: Tried) -> Env
    ensures { result ≡ handed_back tried }
{
    match tried {
        Ok(env) => env,
        Err(env) => env,
    }
}
