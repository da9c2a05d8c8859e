// The request for a card.
ghost use Rattle.std.specs.Prelude.{◌≡◌, ◌+◌, ◌≤◌, length};
ghost use Rattle.octets.specs.Buffer.{put_in};
ghost use Rattle.layout.specs.Sha1.{null_head};
ghost use Rattle.fields.specs.Output.{output_of, output_in};
ghost use Rattle.request.specs.Request.{request_form, request_of, request_refusal};

use crate::parts;
use answer::Card;
use fields::Output;

// Writes the request for both hashes and the serial at the start.
#[tactic(auto, using(crate::proofs::WriteCases::request_in_lem))]
fn put_request(out: &mut [u8], name: &[u8], key: &[u8], serial: &[u8])
    requires { (length name.now ≡ 20) × (length key.now ≡ 20) × (length serial.now ≤ 20) × (67 + length serial.now ≤ length out.old) }
    ensures { out.new ≡ put_in out.old 0 (request_form null_head name.now key.now serial.now) }
{
    parts::put_front(out, serial.len() as u8);
    parts::put_hashes(out, name, key);
    parts::put_serial(out, serial);
}

// Writes the request for a card at the start, and answers how many octets it has: 67 and the serial's.
// A card that does not fit gets 1, then a buffer that is too short 18; both leave the buffer as it was.
#[tactic(auto, using(crate::proofs::AnswerCases::request_cases))]
pub fn write_request(card: Card, out: &mut [u8]) -> Output
    ensures value { result ≡ output_of (request_refusal card) (length out.old) (length (request_of card)) }
    ensures out_after { out.new ≡ output_in (request_refusal card) out.old (request_of card) }
{
    if !answer::card_fits(card) {
        return Output::Refused(1);
    }
    let Card {
        name,
        key,
        serial,
        size,
    } = card;
    let n = 67 + size;
    if out.len() < n {
        return Output::Refused(18);
    }
    put_request(out, &name, &key, &serial[..size]);
    Output::Octets(n)
}
