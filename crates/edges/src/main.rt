// The edges of document 01. Each line has a name, the answer's code and count, and every byte of the output and of four more behind
// it, in hexadecimal. Before the call the byte at i is i % 251. Where numbers are lent they follow, with four behind them, in
// hexadecimal too: before the call the number at i is hexadecimal 1000 + i.
#![tactic(auto)]

ghost use Rattle.std.specs.Prelude.{◌≡◌, ◌≤◌, length};
ghost use Rattle.edges.specs.Sizes.{largest, space};

use arabic::kind::Kind;
use std::io::Write;
use std::{array, fmt, io};
use stemmer::{BadWord, LONGEST, PLACES_ROOM, ROOM, Refusal, Stem, StemPlaces};

// The largest output that is lent, and how many bytes behind an output are printed with it.
const LARGEST: usize = 396;

const BEHIND: usize = 4;

const SPACE: usize = LARGEST + BEHIND;

// Bytes in hexadecimal.
#[derive(Clone, Copy)]
struct Hex<'a>(&'a [u8]);

impl fmt::Display for Hex<'_> {
    fn fmt<W: fmt::Write>(&self, f: &mut fmt::Formatter<W>) -> fmt::Result {
        for byte in self.0 {
            write!(f, "{byte:02x}")?;
        }
        Ok(())
    }
}

// The code and the count of an answer.
#[derive(Clone, Copy)]
struct Counted(Result<usize, Refusal>);

impl fmt::Display for Counted {
    fn fmt<W: fmt::Write>(&self, f: &mut fmt::Formatter<W>) -> fmt::Result {
        match self.0 {
            Ok(count) => write!(f, "0 {count}"),
            Err(refusal) => write!(f, "{} 0", refusal.code()),
        }
    }
}

// The code and the count of the stem entry's answer, and the number of endings.
#[derive(Clone, Copy)]
struct Stemmed(Result<Stem, Refusal>);

impl fmt::Display for Stemmed {
    fn fmt<W: fmt::Write>(&self, f: &mut fmt::Formatter<W>) -> fmt::Result {
        match self.0 {
            Ok(Stem { count, endings }) => write!(f, "0 {count} {endings}"),
            Err(refusal) => write!(f, "{} 0 0", refusal.code()),
        }
    }
}

// The code of the kind entry's answer, and the kind, which is open under a refusal.
#[derive(Clone, Copy)]
struct Told(Result<Kind, BadWord>);

impl fmt::Display for Told {
    fn fmt<W: fmt::Write>(&self, f: &mut fmt::Formatter<W>) -> fmt::Result {
        match self.0 {
            Ok(kind) if kind.defined => f.write_str("0 defined"),
            Ok(_) => f.write_str("0 open"),
            Err(refusal) => write!(f, "{} open", refusal.code()),
        }
    }
}

// An output of room bytes that an entry is lent, with those behind it.
#[derive(Drop)]
struct Lent {
    bytes: [u8; SPACE],
    room: usize,
    ghost within: { room ≤ largest },
}

impl Lent {
    // The output before a call: no two neighbours are alike, and no other part of it begins as the front does.
    fn new(room: usize) -> Lent
        requires { room ≤ largest }
        ensures room { result.room ≡ room }
        ensures sized { length result.bytes ≡ space }
    {
        Lent {
            bytes: array::from_fn(|i| (i % 251) as u8),
            room,
        }
    }
}

// Its room bytes and those behind them.
impl fmt::Display for Lent {
    fn fmt<W: fmt::Write>(&self, f: &mut fmt::Formatter<W>) -> fmt::Result {
        Hex(&self.bytes[..self.room + BEHIND]).fmt(f)
    }
}

// Numbers in hexadecimal, four digits each.
#[derive(Clone, Copy)]
struct HexNumbers<'a>(&'a [u16]);

impl fmt::Display for HexNumbers<'_> {
    fn fmt<W: fmt::Write>(&self, f: &mut fmt::Formatter<W>) -> fmt::Result {
        for number in self.0 {
            write!(f, "{number:04x}")?;
        }
        Ok(())
    }
}

// The code and the count of the places entry's answer, the number of endings, and that of letters.
#[derive(Clone, Copy)]
struct Placed(Result<StemPlaces, Refusal>);

impl fmt::Display for Placed {
    fn fmt<W: fmt::Write>(&self, f: &mut fmt::Formatter<W>) -> fmt::Result {
        match self.0 {
            Ok(
                StemPlaces {
                    count,
                    endings,
                    letters,
                },
            ) => write!(f, "0 {count} {endings} {letters}"),
            Err(refusal) => write!(f, "{} 0 0 0", refusal.code()),
        }
    }
}

// A buffer of room numbers that the places entry is lent, with those behind it.
#[derive(Drop)]
struct LentNumbers {
    numbers: [u16; SPACE],
    room: usize,
    ghost within: { room ≤ largest },
}

impl LentNumbers {
    // The buffer before a call: no two numbers are alike, and none is a place.
    fn new(room: usize) -> LentNumbers
        requires { room ≤ largest }
        ensures room { result.room ≡ room }
        ensures sized { length result.numbers ≡ space }
    {
        LentNumbers {
            numbers: array::from_fn(|i| 0x1000 + i as u16),
            room,
        }
    }
}

// Its room numbers and those behind them.
impl fmt::Display for LentNumbers {
    fn fmt<W: fmt::Write>(&self, f: &mut fmt::Formatter<W>) -> fmt::Result {
        HexNumbers(&self.numbers[..self.room + BEHIND]).fmt(f)
    }
}

// A line: the name, what call writes of its answer, and the output afterwards.
fn line<W: Write, F: FnOnce(&mut W, &mut [u8]) -> io::Result<()>>(
    output: &mut W,
    name: &str,
    mut lent: Lent,
    call: F,
) -> io::Result<()>
    requires { F.IsAlwaysCallable call }
{
    write!(output, "{name}")?;
    let room = lent.room;
    call(output, &mut lent.bytes[..room])?;
    writeln!(output, " {lent}")
}

fn stem(output: &mut impl Write, name: &str, word: &[u8], lent: Lent) -> io::Result<()> {
    line(
        output,
        name,
        lent,
        |output, out| write!(output, "{}", Stemmed(stemmer::stem(word, out))),
    )
}

// The answer, the output, and the numbers.
fn stem_places(
    output: &mut impl Write,
    name: &str,
    word: &[u8],
    mut lent: Lent,
    mut places: LentNumbers,
) -> io::Result<()> {
    let (room, most) = (lent.room, places.room);
    let told = stemmer::stem_places(word, &mut lent.bytes[..room], &mut places.numbers[..most]);
    writeln!(output, "{name}{} {lent} {places}", Placed(told))
}

// A line of an entry that answers a count.
fn counted_line<W: Write, F: FnOnce(&[u8], &mut [u8]) -> Result<usize, Refusal>>(
    output: &mut W,
    name: &str,
    word: &[u8],
    lent: Lent,
    entry: F,
) -> io::Result<()>
    requires { F.IsAlwaysCallable entry }
{
    line(
        output,
        name,
        lent,
        |output, out| write!(output, "{}", Counted(entry(word, out))),
    )
}

fn normalise(output: &mut impl Write, name: &str, word: &[u8], lent: Lent) -> io::Result<()> {
    counted_line(output, name, word, lent, stemmer::normalise)
}

fn finish(output: &mut impl Write, name: &str, word: &[u8], lent: Lent) -> io::Result<()> {
    counted_line(output, name, word, lent, stemmer::finish)
}

fn story(output: &mut impl Write, name: &str, word: &[u8], lent: Lent) -> io::Result<()> {
    counted_line(output, name, word, lent, story::story)
}

// The part that is handed back, in place of code and count, and then the output.
fn stem_part(output: &mut impl Write, name: &str, word: &[u8], lent: Lent) -> io::Result<()> {
    line(
        output,
        name,
        lent,
        |output, out| write!(output, "[{}]", Hex(stemmer::stem_part(word, out))),
    )
}

fn kind(output: &mut impl Write, name: &str, word: &[u8]) -> io::Result<()> {
    writeln!(output, "{name}{}", Told(stemmer::kind(word)))
}

// 85 times U+FEFB.
fn ligatures() -> [u8; LONGEST] {
    array::from_fn(|i| "\u{FEFB}".as_bytes()[i % 3])
}

// N bytes of a row of U+FE7F.
fn marks<const N: usize>() -> [u8; N] {
    array::from_fn(|i| "\u{FE7F}".as_bytes()[i % 3])
}

// Words over 255 bytes.
fn too_long(output: &mut impl Write) -> io::Result<()> {
    let latin = [b'a'; LONGEST + 1];
    stem(
        output,
        "stem, 255 bytes of a: ",
        &latin[..LONGEST],
        Lent::new(LONGEST),
    )?;
    stem(output, "stem, 256 bytes of a: ", &latin, Lent::new(8))?;
    normalise(output, "normalise, 256 bytes of a: ", &latin, Lent::new(8))?;
    finish(output, "finish, 256 bytes of a: ", &latin, Lent::new(8))?;
    kind(output, "kind, 255 bytes of a: ", &latin[..LONGEST])?;
    kind(output, "kind, 256 bytes of a: ", &latin)?;
    stem_part(output, "part, 256 bytes of a: ", &latin, Lent::new(8))
}

// Words that grow.
fn growing(output: &mut impl Write) -> io::Result<()> {
    let word = ligatures();
    normalise(output, "normalise, 85 times FEFB: ", &word, Lent::new(ROOM))?;
    normalise(
        output,
        "normalise, 85 times FEFB, one byte short: ",
        &word,
        Lent::new(ROOM - 1),
    )
}

// Bytes that are not well formed.
fn not_well_formed(output: &mut impl Write) -> io::Result<()> {
    stem(output, "stem, C0 80: ", b"\xC0\x80", Lent::new(8))?;
    stem(output, "stem, ED A0 80: ", b"\xED\xA0\x80", Lent::new(8))?;
    stem(
        output,
        "stem, ED A0 80, no room: ",
        b"\xED\xA0\x80",
        Lent::new(0),
    )?;
    normalise(output, "normalise, C0 80: ", b"\xC0\x80", Lent::new(8))?;
    finish(output, "finish, C0 80: ", b"\xC0\x80", Lent::new(8))?;
    kind(output, "kind, C0 80: ", b"\xC0\x80")?;
    stem_part(output, "part, C0 80: ", b"\xC0\x80", Lent::new(8))
}

// Results that just fit, or do not.
fn rooms(output: &mut impl Write, word: &[u8]) -> io::Result<()> {
    stem(output, "stem of 8 bytes, room for 8: ", word, Lent::new(8))?;
    stem(output, "stem of 8 bytes, room for 7: ", word, Lent::new(7))?;
    stem(
        output,
        "stem of 8 bytes, room for 16: ",
        word,
        Lent::new(16),
    )?;
    normalise(output, "normalise, room for 12: ", word, Lent::new(12))?;
    normalise(output, "normalise, room for 11: ", word, Lent::new(11))?;
    finish(
        output,
        "finish, 0623, room for 2: ",
        b"\xD8\xA3",
        Lent::new(2),
    )?;
    finish(
        output,
        "finish, 0623, room for 1: ",
        b"\xD8\xA3",
        Lent::new(1),
    )?;
    kind(output, "kind, defined: ", word)
}

// The part that is handed back, and the output behind it.
fn parts(output: &mut impl Write, word: &[u8]) -> io::Result<()> {
    stem_part(output, "part, room for 8: ", word, Lent::new(8))?;
    stem_part(output, "part, room for 16: ", word, Lent::new(16))?;
    stem_part(output, "part, room for 7: ", word, Lent::new(7))?;
    stem_part(output, "part, room for 340: ", word, Lent::new(ROOM))?;
    stem_part(output, "part, room for 396: ", word, Lent::new(LARGEST))
}

// An empty part, and an output that is as it was.
fn refused_parts(output: &mut impl Write) -> io::Result<()> {
    let latin = [b'a'; LONGEST + 1];
    stem_part(
        output,
        "part, 256 bytes of a, room for 340: ",
        &latin,
        Lent::new(ROOM),
    )?;
    stem_part(
        output,
        "part, 256 bytes of a, room for 396: ",
        &latin,
        Lent::new(LARGEST),
    )?;
    stem_part(
        output,
        "part, C0 80, room for 340: ",
        b"\xC0\x80",
        Lent::new(ROOM),
    )?;
    stem_part(
        output,
        "part, C0 80, room for 396: ",
        b"\xC0\x80",
        Lent::new(LARGEST),
    )
}

// The longest parts: the stem of 85 times FEFB has 338 bytes.
fn long_parts(output: &mut impl Write) -> io::Result<()> {
    let word = ligatures();
    stem_part(
        output,
        "part, 85 times FEFB, room for 337: ",
        &word,
        Lent::new(337),
    )?;
    stem_part(
        output,
        "part, 85 times FEFB, room for 340: ",
        &word,
        Lent::new(ROOM),
    )?;
    stem_part(
        output,
        "part, 85 times FEFB, room for 396: ",
        &word,
        Lent::new(LARGEST),
    )
}

// The empty word, and a word that becomes empty.
fn empty(output: &mut impl Write) -> io::Result<()> {
    stem(output, "stem, empty word, no room: ", b"", Lent::new(0))?;
    stem(output, "stem, empty word, room for 4: ", b"", Lent::new(4))?;
    normalise(
        output,
        "normalise, empty word, no room: ",
        b"",
        Lent::new(0),
    )?;
    finish(output, "finish, empty word, no room: ", b"", Lent::new(0))?;
    kind(output, "kind, empty word: ", b"")?;
    stem(output, "stem, a mark alone: ", b"!", Lent::new(4))
}

// Empty parts under code 0.
fn empty_parts(output: &mut impl Write) -> io::Result<()> {
    stem_part(output, "part, empty word, no room: ", b"", Lent::new(0))?;
    stem_part(
        output,
        "part, empty word, room for 340: ",
        b"",
        Lent::new(ROOM),
    )?;
    stem_part(
        output,
        "part, empty word, room for 396: ",
        b"",
        Lent::new(LARGEST),
    )?;
    stem_part(
        output,
        "part, a mark alone, room for 4: ",
        b"!",
        Lent::new(4),
    )
}

// How many endings were cut: one of three letters, three of a defined word, four of seven letters, one by an alternative that fails
// behind it; and none with a refusal.
fn endings(output: &mut impl Write) -> io::Result<()> {
    stem(
        output,
        "stem, 0628 0646 064A: ",
        b"\xD8\xA8\xD9\x86\xD9\x8A",
        Lent::new(4),
    )?;
    stem(
        output,
        "stem, 0628 0646 064A, room for 3: ",
        b"\xD8\xA8\xD9\x86\xD9\x8A",
        Lent::new(3),
    )?;
    stem(
        output,
        "stem, 0627 0644 064A 0627 062A 0646: ",
        b"\xD8\xA7\xD9\x84\xD9\x8A\xD8\xA7\xD8\xAA\xD9\x86",
        Lent::new(4),
    )?;
    stem(
        output,
        "stem, 7 times 0647: ",
        b"\xD9\x87\xD9\x87\xD9\x87\xD9\x87\xD9\x87\xD9\x87\xD9\x87",
        Lent::new(6),
    )?;
    stem(
        output,
        "stem, 0627 0644 0645 0633 0643 0646: ",
        b"\xD8\xA7\xD9\x84\xD9\x85\xD8\xB3\xD9\x83\xD9\x86",
        Lent::new(6),
    )
}

// A word with a floating mark: 0627 FE7F 0644 0648 062C 0647, which without it is defined. Finishing keeps the mark.
fn marked(output: &mut impl Write, word: &[u8]) -> io::Result<()> {
    stem(output, "stem, a mark in the article: ", word, Lent::new(8))?;
    stem(
        output,
        "stem, a mark in the article, room for 5: ",
        word,
        Lent::new(5),
    )?;
    stem_part(output, "part, a mark in the article: ", word, Lent::new(8))?;
    normalise(
        output,
        "normalise, a mark in the article: ",
        word,
        Lent::new(12),
    )?;
    normalise(
        output,
        "normalise, a mark in the article, room for 9: ",
        word,
        Lent::new(9),
    )?;
    finish(
        output,
        "finish, a mark in the article: ",
        word,
        Lent::new(16),
    )?;
    kind(output, "kind, a mark in the article: ", word)
}

// Each letter of FE70 to FE7F in a word: FE73 and FE75 are no marks.
fn near_marks(output: &mut impl Write) -> io::Result<()> {
    for end in 0x70..=0x7Fu8 {
        write!(output, "stem, 0645 0644 FE{end:02X} 0643")?;
        stem(
            output,
            ": ",
            &[0xD9, 0x85, 0xD9, 0x84, 0xEF, 0xB9, end + 0x40, 0xD9, 0x83],
            Lent::new(8),
        )?;
    }
    Ok(())
}

// Marks alone: 85 have 255 bytes.
fn marks_alone(output: &mut impl Write) -> io::Result<()> {
    let marks = marks::<LONGEST>();
    stem(output, "stem, 85 marks, no room: ", &marks, Lent::new(0))?;
    stem(output, "stem, 85 marks: ", &marks, Lent::new(4))?;
    stem_part(output, "part, 85 marks: ", &marks, Lent::new(4))?;
    normalise(output, "normalise, 85 marks: ", &marks, Lent::new(4))?;
    finish(output, "finish, 85 marks: ", &marks, Lent::new(LONGEST))?;
    kind(output, "kind, 85 marks: ", &marks)
}

// The 255 bytes are counted with the marks.
fn too_long_with_marks(output: &mut impl Write) -> io::Result<()> {
    let marks = marks::<258>();
    stem(output, "stem, 86 marks: ", &marks, Lent::new(4))?;
    stem_part(output, "part, 86 marks: ", &marks, Lent::new(4))?;
    normalise(output, "normalise, 86 marks: ", &marks, Lent::new(4))?;
    finish(output, "finish, 86 marks: ", &marks, Lent::new(LONGEST))?;
    kind(output, "kind, 86 marks: ", &marks)
}

// Outputs and buffers of numbers that the stem and its places just fit, or do not.
fn room_for_places(output: &mut impl Write, word: &[u8]) -> io::Result<()> {
    stem_places(
        output,
        "places, room for 8 and 4: ",
        word,
        Lent::new(8),
        LentNumbers::new(4),
    )?;
    stem_places(
        output,
        "places, room for 16 and 9: ",
        word,
        Lent::new(16),
        LentNumbers::new(9),
    )?;
    stem_places(
        output,
        "places, room for 7 and 4: ",
        word,
        Lent::new(7),
        LentNumbers::new(4),
    )?;
    stem_places(
        output,
        "places, room for 8 and 3: ",
        word,
        Lent::new(8),
        LentNumbers::new(3),
    )?;
    stem_places(
        output,
        "places, no room: ",
        word,
        Lent::new(0),
        LentNumbers::new(0),
    )
}

// A mark, a ligature, two letters that become one and keep the second's place, two that keep the first's, and letters of two, three
// and four bytes behind a deleted one.
fn kept_places(output: &mut impl Write) -> io::Result<()> {
    stem_places(
        output,
        "places, a mark in the article: ",
        b"\xD8\xA7\xEF\xB9\xBF\xD9\x84\xD9\x88\xD8\xAC\xD9\x87",
        Lent::new(8),
        LentNumbers::new(4),
    )?;
    stem_places(
        output,
        "places, 0645 FEFB 0645: ",
        b"\xD9\x85\xEF\xBB\xBB\xD9\x85",
        Lent::new(8),
        LentNumbers::new(4),
    )?;
    stem_places(
        output,
        "places, 0623 0623 0645 0645: ",
        b"\xD8\xA3\xD8\xA3\xD9\x85\xD9\x85",
        Lent::new(8),
        LentNumbers::new(4),
    )?;
    stem_places(
        output,
        "places, 0623 0624 0645 0645: ",
        b"\xD8\xA3\xD8\xA4\xD9\x85\xD9\x85",
        Lent::new(8),
        LentNumbers::new(4),
    )?;
    stem_places(
        output,
        "places, ! 0645 FEB0 1F600 0645: ",
        b"!\xD9\x85\xEF\xBA\xB0\xF0\x9F\x98\x80\xD9\x85",
        Lent::new(12),
        LentNumbers::new(4),
    )?;
    stem_places(
        output,
        "places, 0628 0646 064A: ",
        b"\xD8\xA8\xD9\x86\xD9\x8A",
        Lent::new(8),
        LentNumbers::new(4),
    )
}

// As many letters as there can be, and stems that are longer than their words.
fn many_places(output: &mut impl Write) -> io::Result<()> {
    let latin = [b'a'; LONGEST + 1];
    let long = &latin[..LONGEST];
    let growing = ligatures();
    stem_places(
        output,
        "places, 255 bytes of a: ",
        long,
        Lent::new(ROOM),
        LentNumbers::new(PLACES_ROOM),
    )?;
    stem_places(
        output,
        "places, 255 bytes of a, one number short: ",
        long,
        Lent::new(LONGEST),
        LentNumbers::new(PLACES_ROOM - 1),
    )?;
    stem_places(
        output,
        "places, 85 times FEFB: ",
        &growing,
        Lent::new(338),
        LentNumbers::new(169),
    )?;
    stem_places(
        output,
        "places, 85 times FEFB, one byte short: ",
        &growing,
        Lent::new(337),
        LentNumbers::new(169),
    )?;
    stem_places(
        output,
        "places, 85 times FEFB, one number short: ",
        &growing,
        Lent::new(338),
        LentNumbers::new(168),
    )
}

// Bad words, and words with no letter.
fn no_places(output: &mut impl Write) -> io::Result<()> {
    stem_places(
        output,
        "places, 256 bytes of a: ",
        &[b'a'; LONGEST + 1],
        Lent::new(4),
        LentNumbers::new(2),
    )?;
    stem_places(
        output,
        "places, C0 80: ",
        b"\xC0\x80",
        Lent::new(4),
        LentNumbers::new(2),
    )?;
    stem_places(
        output,
        "places, ED A0 80, no room: ",
        b"\xED\xA0\x80",
        Lent::new(0),
        LentNumbers::new(0),
    )?;
    stem_places(
        output,
        "places, empty word, no room: ",
        b"",
        Lent::new(0),
        LentNumbers::new(0),
    )?;
    stem_places(
        output,
        "places, 85 marks, no room: ",
        &marks::<LONGEST>(),
        Lent::new(0),
        LentNumbers::new(0),
    )?;
    stem_places(
        output,
        "places, !, room for 4 and 2: ",
        b"!",
        Lent::new(4),
        LentNumbers::new(2),
    )
}

// Stories of no line, one line and two, and outputs that they just fit, or do not.
fn room_for_stories(output: &mut impl Write, book: &[u8]) -> io::Result<()> {
    let dwelling = b"\xD8\xA7\xD9\x84\xD9\x85\xD8\xB3\xD9\x83\xD9\x86";
    story(
        output,
        "story of 31 bytes, room for 31: ",
        book,
        Lent::new(31),
    )?;
    story(
        output,
        "story of 31 bytes, room for 30: ",
        book,
        Lent::new(30),
    )?;
    story(
        output,
        "story of 31 bytes, room for 40: ",
        book,
        Lent::new(40),
    )?;
    story(output, "story of 31 bytes, no room: ", book, Lent::new(0))?;
    story(
        output,
        "story of 57 bytes, room for 57: ",
        dwelling,
        Lent::new(57),
    )?;
    story(
        output,
        "story of 57 bytes, room for 56: ",
        dwelling,
        Lent::new(56),
    )?;
    story(output, "story, empty word, no room: ", b"", Lent::new(0))?;
    story(output, "story, empty word, room for 4: ", b"", Lent::new(4))
}

// A letter that is finished, one that is deleted, one that is taken out, and one that nothing changes.
fn stories_of_a_letter(output: &mut impl Write) -> io::Result<()> {
    story(
        output,
        "story, 0623, room for 27: ",
        b"\xD8\xA3",
        Lent::new(27),
    )?;
    story(
        output,
        "story, 0623, room for 26: ",
        b"\xD8\xA3",
        Lent::new(26),
    )?;
    story(output, "story, !, room for 21: ", b"!", Lent::new(21))?;
    story(output, "story, !, room for 20: ", b"!", Lent::new(20))?;
    story(
        output,
        "story, FE7F, room for 21: ",
        b"\xEF\xB9\xBF",
        Lent::new(21),
    )?;
    story(
        output,
        "story, FE7F, room for 20: ",
        b"\xEF\xB9\xBF",
        Lent::new(20),
    )?;
    story(output, "story, 0628, no room: ", b"\xD8\xA8", Lent::new(0))
}

// Words of 255 bytes, and bad words.
fn stories_of_long_words(output: &mut impl Write) -> io::Result<()> {
    let latin = [b'a'; LONGEST + 1];
    let mut ended = [b'a'; LONGEST];
    ended[LONGEST - 1] = b'!';
    story(
        output,
        "story, 255 bytes of a, no room: ",
        &latin[..LONGEST],
        Lent::new(0),
    )?;
    story(
        output,
        "story, 254 bytes of a and !, room for 23: ",
        &ended,
        Lent::new(23),
    )?;
    story(
        output,
        "story, 254 bytes of a and !, room for 22: ",
        &ended,
        Lent::new(22),
    )?;
    story(output, "story, 256 bytes of a: ", &latin, Lent::new(8))?;
    story(
        output,
        "story, 256 bytes of a, no room: ",
        &latin,
        Lent::new(0),
    )?;
    story(
        output,
        "story, 256 bytes of FF: ",
        &[0xFF; LONGEST + 1],
        Lent::new(8),
    )?;
    story(output, "story, C0 80: ", b"\xC0\x80", Lent::new(8))?;
    story(
        output,
        "story, ED A0 80, no room: ",
        b"\xED\xA0\x80",
        Lent::new(0),
    )
}

// The story of 255 times !, code and count alone. No longer one is known.
fn longest_story(output: &mut impl Write, name: &str, out: &mut [u8]) -> io::Result<()> {
    writeln!(
        output,
        "{name}{}",
        Counted(story::story(&[b'!'; LONGEST], out))
    )
}

fn main(rt: HostRuntime) -> io::Result<()> {
    let book = b"\xD8\xA7\xD9\x84\xD9\x83\xD8\xAA\xD8\xA7\xD8\xA8";
    let mut output = rt.stdout();
    too_long(&mut output)?;
    growing(&mut output)?;
    not_well_formed(&mut output)?;
    rooms(&mut output, book)?;
    parts(&mut output, book)?;
    refused_parts(&mut output)?;
    long_parts(&mut output)?;
    empty(&mut output)?;
    empty_parts(&mut output)?;
    endings(&mut output)?;
    marked(
        &mut output,
        b"\xD8\xA7\xEF\xB9\xBF\xD9\x84\xD9\x88\xD8\xAC\xD9\x87",
    )?;
    near_marks(&mut output)?;
    marks_alone(&mut output)?;
    too_long_with_marks(&mut output)?;
    room_for_places(&mut output, book)?;
    kept_places(&mut output)?;
    many_places(&mut output)?;
    no_places(&mut output)?;
    room_for_stories(&mut output, book)?;
    stories_of_a_letter(&mut output)?;
    stories_of_long_words(&mut output)?;
    longest_story(
        &mut output,
        "story, 255 times !, room for 5755: ",
        &mut [0; 5755],
    )?;
    longest_story(
        &mut output,
        "story, 255 times !, room for 5754: ",
        &mut [0; 5754],
    )
}
