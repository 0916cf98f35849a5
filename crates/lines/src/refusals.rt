// How a line that is no word is answered.
ghost use Rattle.std.specs.Prelude.{◌≡◌, ◌∷◌, ◌+◌, ◌≤◌, length, drop};
ghost use Rattle.stemmer.specs.Entries.{refusal_code};
ghost use Rattle.lines.specs.Plain.{line_feed};
ghost use Rattle.lines.specs.Refusals.{question_mark, zero_digit};

use stemmer::Refusal;

// `?`, the refusal's code and LF, in front of out.
pub fn refuse(refusal: Refusal, out: &mut [u8]) -> usize
    requires { 3 ≤ length out.old }
    ensures value { result ≡ 3 }
    ensures out_after { out.new ≡ question_mark ∷ (zero_digit + refusal_code refusal) ∷ line_feed ∷ drop 3 out.old }
{
    let code = refusal.code();
    out[..3].copy_from_slice(&[b'?', b'0' + code as u8, b'\n']);
    3
}
