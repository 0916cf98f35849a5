// What items 3 and 4 change, as it is noted in the environment: a byte for each change, the first number of its step and its row.
ghost use Rattle.std.specs.Prelude.{◌≡◌, ◌+◌, ◌^◌, ◌<◌};
ghost use Rattle.snowball.specs.Stands.{most_changes};
ghost use Rattle.arabic.specs.Changes.{with_change};

use snowball::env::Env;

// The first number of each step. No table of these steps has more than 16 rows.
pub const VERB_STEP1: u8 = 0x00;

pub const VERB_STEP2A: u8 = 0x10;

pub const VERB_STEP2B: u8 = 0x20;

pub const VERB_STEP2C: u8 = 0x30;

pub const NOUN_STEP1B: u8 = 0x40;

pub const NOUN_STEP2A: u8 = 0x50;

pub const NOUN_STEP2B: u8 = 0x60;

pub const NOUN_STEP2C1: u8 = 0x70;

pub const NOUN_STEP2C2: u8 = 0x80;

pub const NOUN_STEP3: u8 = 0x90;

pub const PREFIX_STEP1: u8 = 0xA0;

pub const PREFIX_STEP2: u8 = 0xB0;

pub const PREFIX_STEP3A_NOUN: u8 = 0xC0;

pub const PREFIX_STEP3B_NOUN: u8 = 0xD0;

pub const PREFIX_STEP3_VERB: u8 = 0xE0;

pub const PREFIX_STEP4_VERB: u8 = 0xF0;

// Notes that the step with this first number has taken this row, behind the changes noted so far.
pub fn note(env: &mut Env, step: u8, row: usize)
    requires { (env.old.made < most_changes) × (step + row < 2 ^ 8) }
    ensures { env.new ≡ with_change env.old (step + row) }
{
    env.changes[env.made as usize] = step + row as u8;
    env.made += 1;
}
