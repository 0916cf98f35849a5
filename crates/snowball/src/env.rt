// The Rust's snowball_env.rs: the environment, and the functions that the Arabic steps call.
ghost use Rattle.std.specs.Prelude.{◌≡◌, List, [], true, ℕ, ◌+◌, ◌-◌, ◌<◌, ◌≤◌, length, take, get_or, leb};
ghost use Rattle.std.specs.Result.{IfErr, is_ok};
ghost use Rattle.utf8.specs.Utf8.{Scalars, encode};
ghost use Rattle.utf8.specs.Places.{starts, leads, NextStart, LastStart};
ghost use Rattle.snowball.specs.Match.{stands_at};
ghost use Rattle.snowball.specs.Chars.{Chars, fresh, with_cursor, eq_s};
ghost use Rattle.snowball.specs.Stands.{work_size, longest_word, Stands, Holds, SameMarks, Sliced, handed_back};
ghost use Rattle.snowball.specs.Bytes.{Created, Replaced};

// The bytes of the work array: a word of 255 bytes has at most so many when it is normalised.
pub const WORK_SIZE: usize = 340;

// The most changes that are noted: each takes at least one letter of two bytes from the work array.
pub const MOST_CHANGES: usize = 170;

// The Rust's SnowballEnv: a text, and places in it. The text is the first limit bytes of current: in the Rust limit is
// always the length of current where Arabic is stemmed. Three fields are not in the Rust. The changes that steps have made, a
// number for each in the order made, and made, how many of them are in use: a step that changes the text notes it; the functions
// here keep both as they are. And places: beside the first byte of each letter of the text stands the byte of the typed word where
// the letter begins that it came from.
#[derive(Drop)]
pub struct Env {
    pub cursor: usize,
    pub limit: usize,
    pub limit_backward: usize,
    pub bra: usize,
    pub ket: usize,
    pub made: u32,
    pub current: [u8; WORK_SIZE],
    pub places: [u8; WORK_SIZE],
    pub changes: [u8; MOST_CHANGES],
}

// The Rust's is_char_boundary, asked of a byte: whether a letter starts with it.
fn is_start(byte: u8) -> bool
    ensures { result ≡ starts byte }
{
    !matches!(byte, 0x80..=0xBF)
}

// The Rust's chars().count(): how many letters the text encodes.
pub fn count_chars(text: &[u8]) -> usize
    ensures by_letters { (cs : List ℕ) → text.now ≡ encode cs → result ≡ length cs }
    ensures value { result ≡ leads text.now }
{
    let mut count = 0;
    for &byte in text {
        if is_start(byte) {
            count += 1;
        }
    }
    count
}

// Whether the text encodes at least so many letters: what a guard asks of chars().count(), with no byte read behind the last
// letter that it needs.
pub fn has_chars(text: &[u8], least: usize) -> bool
    ensures by_letters { (cs : List ℕ) → text.now ≡ encode cs → result ≡ leb least (length cs) }
    ensures value { result ≡ leb least (leads text.now) }
{
    let mut starts = text.iter().filter(|&&byte| is_start(byte));
    least == 0 || starts.nth(least - 1).is_some()
}

// The loop of the Rust's next_char: the next place behind the cursor where a letter starts, or the text's end.
fn next_start(text: &[u8], cursor: usize) -> usize
    requires { cursor < length text.now }
    ensures { NextStart text.now (length text.now) cursor result }
{
    (cursor + 1..text.len())
        .find(|&place| is_start(text[place]))
        .unwrap_or(text.len())
}

// The loop of the Rust's previous_char: the last place in front of the cursor where a letter starts.
pub fn last_start(text: &[u8], cursor: usize) -> usize
    requires { (cursor ≤ length text.now) × (0 < cursor) × (starts (get_or text.now 0 0) ≡ true) }
    ensures { LastStart text.now cursor result }
{
    (0..cursor)
        .rev()
        .find(|&place| is_start(text[place]))
        .unwrap_or(0)
}

// The test of the Rust's eq_s: whether key stands at the cursor. At the text's end the answer is no, also for an empty key.
pub fn stands_at(text: &[u8], cursor: usize, key: &[u8]) -> bool
    ensures { result ≡ stands_at text.now cursor key.now }
{
    cursor < text.len() && text[cursor..].starts_with(key)
}

// The places of a word as it is typed: each byte's is its own.
fn own_places() -> [u8; WORK_SIZE]
    ensures { (k : ℕ) → k < longest_word → get_or result k 0 ≡ k }
{
    let mut places = [0; WORK_SIZE];
    for place in 0..255u8 {
        places[usize::from(place)] = place;
    }
    places
}

impl Env {
    // The Rust's create: the word's bytes, with the cursor in front and the whole word from bra to ket. Each byte's place is its own,
    // and nothing is changed yet.
    pub fn create(word: &[u8]) -> Env
        requires { length word.now ≤ longest_word }
        ensures { Created word.now result × ((cs : List ℕ) → Scalars cs → word.now ≡ encode cs → Stands result (fresh cs)) }
    {
        let len = word.len();
        let mut current = [0u8; WORK_SIZE];
        current[..len].copy_from_slice(word);
        Env {
            cursor: 0,
            limit: len,
            limit_backward: 0,
            bra: 0,
            ket: len,
            made: 0,
            current,
            places: own_places(),
            changes: [0; MOST_CHANGES],
        }
    }

    // The text: the bytes in front of limit.
    pub fn text(&self) -> &[u8]
        requires { self.now.limit ≤ work_size }
        ensures { result.now ≡ take self.now.limit self.now.current }
    {
        &self.current[..self.limit]
    }

    // The Rust's replace_s: the bytes from bra to ket are replaced by s, which has at most as many. A cursor at ket or behind it
    // moves with the text, one strictly inside goes to bra, any other stays. As many places as bytes go are taken out at bra, so
    // that s has those of the last bytes that it replaces.
    fn replace_s(mut self, bra: usize, ket: usize, s: &[u8]) -> Env
        requires { (self.limit ≤ work_size) × (self.cursor ≤ self.limit) × (bra + length s.now ≤ ket) × (ket ≤ self.limit) }
        ensures { Replaced self bra ket s.now result }
    {
        let limit = self.limit;
        let cut = ket - bra;
        let end = bra + s.len();
        self.current.copy_within(ket..limit, end);
        self.current[bra..end].copy_from_slice(s);
        self.places.copy_within(ket - s.len()..limit, bra);
        self.cursor = if self.cursor >= ket {
            self.cursor - cut + s.len()
        } else {
            self.cursor.min(bra)
        };
        self.limit = limit - cut + s.len();
        self
    }

    // The Rust's slice_from: the letters from bra to ket are replaced by those of s.
    pub fn slice_from(self, s: &[u8]) -> Env
        requires { Holds self × (self.bra + length s.now ≤ self.ket) × (self.ket ≤ self.limit) }
        ensures { SameMarks self result × ((cs : List ℕ) → Scalars cs → s.now ≡ encode cs → Sliced self cs result) }
    {
        let bra = self.bra;
        let ket = self.ket;
        self.replace_s(bra, ket, s)
    }

    // The Rust's slice_del: the letters from bra to ket are deleted. Where ket is the end of the text no byte moves.
    pub fn slice_del(mut self) -> Env
        requires { Holds self × (self.bra ≤ self.ket) × (self.ket ≤ self.limit) }
        ensures { SameMarks self result × Sliced self [] result }
    {
        if self.ket == self.limit {
            self.limit = self.bra;
            self.cursor = self.cursor.min(self.bra);
            return self;
        }
        self.slice_from(b"")
    }

    // The Rust's eq_s: whether key stands at the cursor, which then moves behind it; if not, the environment as it was. The Rust's
    // last loop is left out: behind a key of whole letters there is a boundary.
    pub fn eq_s(mut self, key: &[u8]) -> Result<Env, Env>
        requires { Holds self }
        ensures marks { SameMarks self (handed_back result) }
        ensures stands { (s : Chars) → Stands self s → (cs : List ℕ) → Scalars cs → key.now ≡ encode cs
            → (is_ok result ≡ stands_at s.text s.cursor cs) × Stands (handed_back result) (eq_s s cs) }
        ensures unchanged { IfErr result (λ r. r ≡ self) }
    {
        if stands_at(self.text(), self.cursor, key) {
            self.cursor += key.len();
            return Ok(self);
        }
        Err(self)
    }

    // The Rust's next_char: the cursor moves over the letter behind it.
    pub fn next_char(mut self) -> Env
        requires { Holds self × (self.cursor < self.limit) }
        ensures { SameMarks self result × ((s : Chars) → Stands self s → Stands result (with_cursor s (s.cursor + 1))) }
    {
        self.cursor = next_start(self.text(), self.cursor);
        self
    }

    // The Rust's previous_char: the cursor moves back over the letter in front of it.
    pub fn previous_char(mut self) -> Env
        requires { Holds self × (0 < self.cursor) }
        ensures { SameMarks self result × ((s : Chars) → Stands self s → Stands result (with_cursor s (s.cursor - 1))) }
    {
        self.cursor = last_start(self.text(), self.cursor);
        self
    }
}
