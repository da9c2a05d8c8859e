// The slip of the answer.
ghost use Rattle.std.specs.Prelude.{◌≡◌};
ghost use Rattle.octets.specs.Buffer.{put_in, put_size};
ghost use Rattle.slip.specs.Slip.{slip_of};
ghost use Rattle.desk_question.specs.Asked.{asked};

use crate::questions;
use fields::Output;

// Writes the slip of the answer to a question at the start of a buffer: how many octets, or 0 where
// there is no room for them.
#[tactic(auto, using(crate::proofs::SlipCases::slip_cases))]
pub fn slip_for(question: &[u8], response: &[u8], out: &mut [u8]) -> usize
    ensures value { result ≡ put_size out.old (slip_of (asked question.now response.now)) }
    ensures out_after { out.new ≡ put_in out.old 0 (slip_of (asked question.now response.now)) }
{
    let answer = questions::ask(question, response);
    match slip_write::write_unjudged(answer, out) {
        Output::Octets(n) => n,
        Output::Refused(_) => 0,
    }
}
