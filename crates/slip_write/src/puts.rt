// An answer as a slip, the slip rules apart.
ghost use Rattle.std.specs.Prelude.{◌≡◌, ◌++◌, ◌∷◌, [], ◌≤◌, length};
ghost use Rattle.octets.specs.Buffer.{splice};
ghost use Rattle.octets.specs.Number.{octets_of};
ghost use Rattle.answer.specs.Verdict.{kind_of, reason_of};
ghost use Rattle.fields.specs.Output.{output_of, output_in};
ghost use Rattle.slip.specs.Numbers.{numbers_form};
ghost use Rattle.slip.specs.Table.{size_of};
ghost use Rattle.slip.specs.Slip.{card_octets, slip_of};

use answer::{Answer, Card, Verdict};
use fields::Output;

// Writes a card's hashes after the kind.
#[tactic(auto, using(crate::proofs::PutCases::put_hashes))]
fn put_hashes(card: Card, out: &mut [u8])
    requires { 41 ≤ length out.old }
    ensures { out.new ≡ splice out.old 1 (card.name ++ card.key) }
{
    let name = card.name;
    octets::put(out, 1, &name);
    let key = card.key;
    octets::put(out, 21, &key);
}

// Writes a card after the kind.
#[tactic(auto, using(crate::proofs::PutCases::put_card))]
fn put_card(card: Card, out: &mut [u8])
    requires { 62 ≤ length out.old }
    ensures { out.new ≡ splice out.old 1 (card_octets card) }
{
    put_hashes(card, out);
    octets::put_number(out, 41, 1, card.size as u64);
    let serial = card.serial;
    octets::put(out, 42, &serial);
}

// Writes a kind and a card.
#[tactic(auto, using(crate::proofs::PutCases::put_head))]
fn put_head(kind: u8, card: Card, out: &mut [u8])
    requires { 62 ≤ length out.old }
    ensures { out.new ≡ splice out.old 0 (octets_of 1 kind ++ card_octets card) }
{
    octets::put_number(out, 0, 1, kind as u64);
    put_card(card, out);
}

// Writes a kind, a card, thisUpdate and nextUpdate.
#[tactic(auto, using(crate::proofs::PutCases::put_times))]
fn put_times(kind: u8, card: Card, this: u64, next: u64, out: &mut [u8])
    requires { 78 ≤ length out.old }
    ensures { out.new ≡ splice out.old 0 (octets_of 1 kind ++ (card_octets card ++ numbers_form (8 ∷ 8 ∷ []) (this ∷ next ∷ []))) }
{
    put_head(kind, card, out);
    octets::put_number(out, 62, 8, this);
    octets::put_number(out, 70, 8, next);
}

// Writes the slip of a revoked card, with the octet of its reason.
#[tactic(auto, using(crate::proofs::PutCases::put_revoked))]
fn put_revoked(card: Card, this: u64, next: u64, at: u64, reason: u8, out: &mut [u8])
    requires { 87 ≤ length out.old }
    ensures { out.new ≡ splice out.old 0
        (octets_of 1 2 ++ (card_octets card ++ numbers_form (8 ∷ 8 ∷ 8 ∷ 1 ∷ []) (this ∷ next ∷ at ∷ reason ∷ []))) }
{
    put_times(2, card, this, next, out);
    octets::put_number(out, 78, 8, at);
    octets::put_number(out, 86, 1, reason as u64);
}

// Writes the slip of a refusal.
#[tactic(auto, using(crate::proofs::PutCases::put_refusal))]
fn put_refusal(number: u8, status: u8, out: &mut [u8])
    requires { 3 ≤ length out.old }
    ensures { out.new ≡ splice out.old 0 (octets_of 1 4 ++ numbers_form (1 ∷ 1 ∷ []) (number ∷ status ∷ [])) }
{
    octets::put_number(out, 0, 1, 4);
    octets::put_number(out, 1, 1, number as u64);
    octets::put_number(out, 2, 1, status as u64);
}

// The octet of a reason.
fn reason_of(reason: Option<u8>) -> u8
    ensures { result ≡ reason_of reason }
{
    reason.unwrap_or(255)
}

// Writes a slip where there is room for it.
#[tactic(auto, unfolding(slip::specs::Slip::slip_of, slip::specs::Slip::body_of, slip::specs::Table::size_of, slip::specs::Table::body_size, slip::specs::Table::row_of, slip::specs::Table::row_in, slip::specs::Numbers::total, octets::specs::Number::octets_of))]
fn put_slip(answer: Answer, out: &mut [u8])
    requires { size_of 20 (kind_of answer.verdict) ≤ length out.old }
    ensures { out.new ≡ splice out.old 0 (slip_of answer) }
{
    let verdict = answer.verdict;
    let card = answer.card;
    match verdict {
        Verdict::Good { this, next } => put_times(1, card, this, next, out),
        Verdict::Revoked {
            this,
            next,
            at,
            reason,
        } => put_revoked(card, this, next, at, reason_of(reason), out),
        Verdict::Unknown { this, next } => put_times(3, card, this, next, out),
        Verdict::Refused { number, status } => put_refusal(number, status, out),
    }
}

// Writes the slip of an answer where there is no refusal yet: 18 where the buffer is too short, and the
// buffer as it was.
#[tactic(auto, using(crate::proofs::WriteCases::write_cases))]
pub(crate) fn write_with(answer: Answer, refusal: u8, out: &mut [u8]) -> Output
    ensures value { result ≡ output_of refusal (length out.old) (length (slip_of answer)) }
    ensures out_after { out.new ≡ output_in refusal out.old (slip_of answer) }
{
    let size = slip::slip_size(answer);
    let output = fields::room_for(refusal, out.len(), size);
    match output {
        Output::Refused(number) => Output::Refused(number),
        Output::Octets(n) => {
            put_slip(answer, out);
            Output::Octets(n)
        }
    }
}
