// The tables of the searches, and the two directions in which a search reads.
ghost use Rattle.std.specs.Prelude.{◌≡◌, List, [], reverse, ℕ, ◌<◌, length, take, get_or, T, refl, true};
ghost use Rattle.std.proofs.lemmas.List.{length-reverse};
ghost use Rattle.definition.specs.Tables.{Table};
ghost use Rattle.definition.specs.Search.{row_at};
ghost use Rattle.utf8.specs.Spelt.{Encodes};
ghost use Rattle.snowball.specs.Rows.{keys_by, well_formed, rows_of, byte_table, plain};

use std::marker::PhantomData;

// Which way a search reads: the text and the rows from their starts on, or both from their ends.
pub trait Direction {
    // The bytes in the order in which they are read.
    ghost read: { List ℕ → List ℕ };

    // The byte that is read as number k, from 0.
    fn byte(bytes: &[u8], k: usize) -> u8
        requires { k < length bytes.now }
        ensures { result ≡ get_or (read bytes.now) k 0 };

    // As many bytes are read as there are.
    ghost same_length: { (s : List ℕ) → length (read s) ≡ length s };
}

// From the starts on, as find_among reads.
pub struct Forward;

// From the ends, as find_among_b reads.
pub struct Backward;

impl Direction for Forward {
    ghost read = { λ s. s };

    fn byte(bytes: &[u8], k: usize) -> u8 {
        bytes[k]
    }

    ghost same_length = { λ s. refl };
}

impl Direction for Backward {
    ghost read = { reverse };

    fn byte(bytes: &[u8], k: usize) -> u8 {
        bytes[bytes.len() - 1 - k]
    }

    ghost same_length = { length-reverse };
}

// The Rust's table of `Among`s, a column for each of its fields: of each row the bytes, their number, the link and the class. The link
// is the row that is tried next, if there is one; -1 in the Rust where there is none.
#[derive(Drop)]
pub struct Among<'a, D: Direction> {
    pub rows: &'a [[u8; 6]],
    pub lens: &'a [u8],
    pub links: &'a [Option<u8>],
    pub classes: &'a [u8],
    pub direction: PhantomData<D>,
    pub ghost same_count: { (length lens.now ≡ length rows.now) × (length links.now ≡ length rows.now) × (length classes.now ≡ length rows.now) },
    pub ghost well_formed: { T (well_formed (keys_by D.read rows.now lens.now) lens.now links.now) },
}

impl<'a, D: Direction> Among<'a, D> {
    // The bytes of row k, which are those of the letters of that row of the definition's table.
    pub fn row(&self, k: usize) -> &'a [u8]
        requires { k < length self.now.rows.now }
        ensures bytes { result.now ≡ take (get_or self.now.lens.now k 0) (get_or self.now.rows.now k []) }
        ensures letters { (t : Table) → rows_of self.now.rows.now self.now.lens.now self.now.classes.now ≡ byte_table t → plain t ≡ true → Encodes result.now (row_at t k).letters }
    {
        let row = &self.rows[k];
        &row[..usize::from(self.lens[k])]
    }
}
