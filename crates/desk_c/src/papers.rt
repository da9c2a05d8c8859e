// The check, requests and slips.
ghost use Rattle.std.specs.Prelude.{◌≡◌, length};
ghost use Rattle.octets.specs.Buffer.{put_in, put_size};
ghost use Rattle.answer.specs.Verdict.{without_place};
ghost use Rattle.slip.specs.Slip.{slip_of, read_of};
ghost use Rattle.desk_question.specs.Asked.{asked};
ghost use Rattle.desk_c.specs.Papers.{slip_number, size_or0, request_size, request_in};

use answer::Verdict;
use fields::Output;

// Writes the slip of the answer to a question of 353 octets: its length, or 0 where the buffer is too
// short. Reading that slip gives back the answer, without its place.
#[tactic(auto, using(crate::proofs::PaperCases::check_read))]
pub fn desk_check(question: &[u8], response: &[u8], slip: &mut [u8]) -> usize
    ensures value { result ≡ put_size slip.old (slip_of (asked question.now response.now)) }
    ensures slip_after { slip.new ≡ put_in slip.old 0 (slip_of (asked question.now response.now)) }
    ensures response_value { read_of 20 (slip_of (asked question.now response.now)) ≡ without_place (asked question.now response.now) }
{
    desk_case::slip_for(question, response, slip)
}

// Whether octets are a slip: 0, or 17 where they break the slip rules.
#[tactic(auto, unfolding(crate::specs::Papers::slip_number))]
pub fn desk_slip(slip: &[u8]) -> usize
    ensures { result ≡ slip_number (read_of 20 slip.now).verdict }
{
    match slip_read::read_slip(slip).verdict {
        Verdict::Refused { number: 17, .. } => 17,
        _ => 0,
    }
}

// How many octets a writer wrote.
#[tactic(auto, unfolding(crate::specs::Papers::size_or0))]
fn size_or_0(output: Output) -> usize
    ensures { result ≡ size_or0 output }
{
    match output {
        Output::Octets(n) => n,
        Output::Refused(_) => 0,
    }
}

// Writes the request for a card of 61 octets: its length, or 0 where the card does not fit or the
// buffer is too short.
#[tactic(auto, unfolding(crate::specs::Papers::request_size, crate::specs::Papers::request_in))]
pub fn desk_request(card: &[u8], out: &mut [u8]) -> usize
    ensures value { result ≡ request_size card.now (length out.old) }
    ensures out_after { out.new ≡ request_in card.now out.old }
{
    if card.len() != 61 {
        return 0;
    }
    size_or_0(request::write_request(fields::card_in(card), out))
}
