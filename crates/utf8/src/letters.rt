// Single letters in bytes: one is read off a text, one is written into it.
ghost use Rattle.std.specs.Prelude.{◌≡◌, ◌+◌, ◌*◌, ◌%◌, ◌^◌, ◌<◌, ◌≤◌, length};
ghost use Rattle.utf8.specs.Utf8.{encode1};
ghost use Rattle.utf8.specs.Letters.{SomeLetter, Read, Wrote};

// A letter as a number, and how many bytes it has.
#[derive(Clone, Copy)]
pub struct Letter {
    pub code: u32,
    pub width: usize,
}

// A letter's bits so far, and the last six bits of one byte more.
fn joined(bits: u32, byte: u8) -> u32
    requires { bits < 2 ^ 24 }
    ensures { result ≡ bits * 64 + byte % 64 }
{
    bits * 64 + u32::from(byte % 64)
}

// The letter that starts at the cursor.
#[tactic(auto, using(crate::proofs::ReadLetter::room_2, crate::proofs::ReadLetter::room_3, crate::proofs::ReadLetter::room_4))]
pub fn read_letter(text: &[u8], cursor: usize) -> Letter
    requires { SomeLetter text.now cursor }
    ensures { Read text.now cursor result }
{
    let first = text[cursor];
    match first {
        0x00..=0x7F => Letter {
            code: u32::from(first),
            width: 1,
        },
        0x80..=0xDF => Letter {
            code: joined(u32::from(first % 32), text[cursor + 1]),
            width: 2,
        },
        0xE0..=0xEF => {
            let two = joined(u32::from(first % 16), text[cursor + 1]);
            Letter {
                code: joined(two, text[cursor + 2]),
                width: 3,
            }
        }
        _ => {
            let two = joined(u32::from(first % 8), text[cursor + 1]);
            let three = joined(two, text[cursor + 2]);
            Letter {
                code: joined(three, text[cursor + 3]),
                width: 4,
            }
        }
    }
}

// Writes the bytes into out from the byte at on. The answer is the place behind them.
pub fn put_bytes(out: &mut [u8], at: usize, bytes: &[u8]) -> usize
    requires { at + length bytes.now ≤ length out.old }
    ensures { Wrote out.old at bytes.now out.new result }
{
    let end = at + bytes.len();
    out[at..end].copy_from_slice(bytes);
    end
}

// A byte behind a letter's first, with the last six bits of x.
fn trail(x: u32) -> u8
    ensures { result ≡ 0x80 + x % 64 }
{
    (0x80 + x % 64) as u8
}

// Writes the letter c into out from the byte at on. The answer is the place behind it.
#[tactic(auto, unfolding(crate::specs::Utf8::encode1))]
pub fn put_letter(out: &mut [u8], at: usize, c: u32) -> usize
    requires { (at + length (encode1 c) ≤ length out.old) × (c < 0x110000) }
    ensures { Wrote out.old at (encode1 c) out.new result }
{
    match c {
        0x00..=0x7F => put_bytes(out, at, &[c as u8]),
        0x80..=0x7FF => put_bytes(out, at, &[(0xC0 + c / 64) as u8, trail(c)]),
        0x800..=0xFFFF => put_bytes(out, at, &[(0xE0 + c / 4096) as u8, trail(c / 64), trail(c)]),
        _ => put_bytes(
            out,
            at,
            &[
                (0xF0 + c / 262144) as u8,
                trail(c / 4096),
                trail(c / 64),
                trail(c),
            ],
        ),
    }
}
