// An error response, told by its five octets: 30 03 0a 01 and the status.
//
// No function here has a requirement. The whole layout is not read for it, and no other response is
// told apart here: the answer for all of them is 0.
#![tactic(auto)]

ghost use Rattle.std.specs.Prelude.{◌≡◌};
ghost use Rattle.read_response.specs.Parts.{judged_of};
ghost use Rattle.read_response.specs.Refusals.{refusal_of};

// The status of an error response; 0 where the octets are none.
#[tactic(auto, using(crate::proofs::Cases::error_cases))]
pub fn error_status(s: &[u8]) -> u8
    ensures { result ≡ (refusal_of (judged_of s.now)).status }
{
    if s.len() != 5 || fields::value_at(s, 0, 4) != 0x30030a01 {
        return 0;
    }
    let status = s[4];
    if status == 4 || 6 < status {
        return 0;
    }
    status
}
