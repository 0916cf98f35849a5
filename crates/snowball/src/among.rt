// The Rust's among.rs, and the two searches of snowball_env.rs.
ghost use Rattle.std.specs.Prelude.{◌≡◌, true, ◌+◌, ◌-◌, ◌≤◌, ◌<◌, length};
ghost use Rattle.definition.specs.Words.{Word};
ghost use Rattle.definition.specs.Tables.{Table};
ghost use Rattle.definition.specs.Search.{longest};
ghost use Rattle.utf8.specs.Utf8.{Scalars, encode};
ghost use Rattle.snowball.specs.Rows.{keys_by, before, matches, rows_of, byte_table, plain};
ghost use Rattle.snowball.specs.Search.{lcp, between, Halved, Walked, LongestRow, Ahead, Behind, AheadBytes, BehindBytes};

use crate::tables::{Among, Backward, Direction, Forward};

// What a comparison of the text with one row tells: how many bytes are the same, and whether the text comes before the row.
#[derive(Clone, Copy)]
struct Compared {
    common: usize,
    less: bool,
}

// Where the halving ends: a row, and how many of its bytes the text has.
#[derive(Clone, Copy)]
struct Place {
    row: usize,
    common: usize,
}

// The longest row that matches: its number, from 0, its class and the number of its bytes. With no match the number of rows, class 0 and
// no bytes.
#[derive(Clone, Copy)]
struct Match {
    row: usize,
    class: u8,
    len: usize,
}

// What a search answers: the number, from 0, of the longest row that matches, its class, and the cursor past it. With no match the
// number of rows, class 0 and the old cursor.
#[derive(Clone, Copy, Debug, PartialEq, Eq)]
pub struct Found {
    pub row: usize,
    pub class: u8,
    pub cursor: usize,
}

// Compares the text with a row's bytes, of which the first `from` that are read are known to be the same.
fn compare<D: Direction>(text: &[u8], row: &[u8], from: usize) -> Compared
    requires from_bound { from ≤ lcp (D.read row.now) (D.read text.now) }
    ensures common_value { result.common ≡ lcp (D.read row.now) (D.read text.now) }
    ensures less_value { result.less ≡ before (D.read text.now) (D.read row.now) }
{
    for common in from..row.len() {
        if common == text.len() {
            return Compared { common, less: true };
        }
        let a = D::byte(text, common);
        let b = D::byte(row, common);
        if a < b {
            return Compared { common, less: true };
        }
        if b < a {
            return Compared {
                common,
                less: false,
            };
        }
    }
    Compared {
        common: row.len(),
        less: false,
    }
}

// The halving: the last row that does not come after the text.
fn halve<D: Direction>(text: &[u8], table: &Among<'_, D>) -> Place
    ensures { Halved (keys_by D.read table.now.rows.now table.now.lens.now) (D.read text.now) result.row result.common }
{
    let mut i: usize = 0;
    let mut j: usize = table.rows.len();
    let mut common_i: usize = 0;
    let mut common_j: usize = 0;
    let mut first_key_inspected = false;
    loop {
        let k = i + ((j - i) >> 1);
        let common = common_i.min(common_j);
        let r = compare::<D>(text, table.row(k), common);
        if r.less {
            j = k;
            common_j = r.common;
        } else {
            i = k;
            common_i = r.common;
        }
        if j - i <= 1 {
            if i > 0 {
                break;
            }
            if j == i {
                break;
            }
            if first_key_inspected {
                break;
            }
            first_key_inspected = true;
        }
    }
    Place {
        row: i,
        common: common_i,
    }
}

// The walk over the back links from a row: the first row that is wholly in the text, or the number of rows where none is.
fn walk<D: Direction>(row: usize, common: usize, table: &Among<'_, D>) -> usize
    requires { row < length table.now.rows.now }
    ensures { Walked table.now.lens.now table.now.links.now common row result }
{
    if usize::from(table.lens[row]) <= common {
        return row;
    }
    match table.links[row] {
        None => table.rows.len(),
        Some(link) => walk(usize::from(link), common, table),
    }
}

// The number of the longest row that matches; the number of rows where none does. The first row is looked at before the walk, which
// stays a real call.
fn row_among<D: Direction>(text: &[u8], table: &Among<'_, D>) -> usize
    ensures { result ≡ longest (matches D.read text.now) (rows_of table.now.rows.now table.now.lens.now table.now.classes.now) }
{
    let place = halve(text, table);
    if usize::from(table.lens[place.row]) <= place.common {
        return place.row;
    }
    walk(place.row, place.common, table)
}

// The longest row that matches, with its class and its length.
fn find<D: Direction>(text: &[u8], table: &Among<'_, D>) -> Match
    ensures within { result.len ≤ length text.now }
    ensures longest_row { LongestRow (matches D.read text.now) (rows_of table.now.rows.now table.now.lens.now table.now.classes.now) result }
{
    let row = row_among(text, table);
    if row == table.rows.len() {
        return Match {
            row,
            class: 0,
            len: 0,
        };
    }
    Match {
        row,
        class: table.classes[row],
        len: usize::from(table.lens[row]),
    }
}

// find_among: the longest row at the cursor, no byte of it behind the limit.
pub fn find_among(text: &[u8], cursor: usize, limit: usize, table: &Among<'_, Forward>) -> Found
    requires cursor_le_limit { (cursor ≤ limit) × (limit ≤ length text.now) }
    ensures by_bytes { (cursor ≤ result.cursor) × (result.cursor ≤ limit)
        × AheadBytes (rows_of table.now.rows.now table.now.lens.now table.now.classes.now) (between text.now cursor limit) cursor result }
    ensures ahead { (t : Table) → rows_of table.now.rows.now table.now.lens.now table.now.classes.now ≡ byte_table t → plain t ≡ true
        → (w : Word) → Scalars w → between text.now cursor limit ≡ encode w → Ahead t w cursor result }
{
    let found = find(&text[cursor..limit], table);
    Found {
        row: found.row,
        class: found.class,
        cursor: cursor + found.len,
    }
}

// find_among_b: the longest row that ends at the cursor, no byte of it before limit_backward.
pub fn find_among_b(
    text: &[u8],
    cursor: usize,
    limit_backward: usize,
    table: &Among<'_, Backward>,
) -> Found
    requires limit_backward_le_cursor { (limit_backward ≤ cursor) × (cursor ≤ length text.now) }
    ensures by_bytes { (limit_backward ≤ result.cursor) × (result.cursor ≤ cursor)
        × BehindBytes (rows_of table.now.rows.now table.now.lens.now table.now.classes.now) (between text.now limit_backward cursor) cursor result }
    ensures behind { (t : Table) → rows_of table.now.rows.now table.now.lens.now table.now.classes.now ≡ byte_table t → plain t ≡ true
        → (w : Word) → Scalars w → between text.now limit_backward cursor ≡ encode w → Behind t w cursor result }
{
    let found = find(&text[limit_backward..cursor], table);
    Found {
        row: found.row,
        class: found.class,
        cursor: cursor - found.len,
    }
}
