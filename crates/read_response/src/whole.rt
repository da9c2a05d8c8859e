// A response as a whole: the envelope first, and then, where its type is the basic one, what its string
// holds.
ghost use Rattle.std.specs.Prelude.{◌≡◌};
ghost use Rattle.read_response.specs.Parts.{judged_of};

use crate::{Parts, Unread, basics};
use read_envelope::Cover;

// What a response is, before any question is asked.
#[tactic(auto, using(crate::proofs::JudgeCases::whole_cases))]
pub fn judge(s: &[u8]) -> Result<Parts, Unread>
    ensures { result ≡ judged_of s.now }
{
    if 16384 < s.len() {
        return Err(Unread::TooLong);
    }
    match read_envelope::read_envelope(s)? {
        Cover::Failed(status) => Err(Unread::Failed(status)),
        Cover::Holds { basic, len } => {
            if basic {
                let from = s.len() - len;
                basics::judge_basic(&s[from..], from)
            } else {
                Err(Unread::OtherType)
            }
        }
    }
}
