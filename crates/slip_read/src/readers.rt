// A slip as an answer.
ghost use Rattle.std.specs.Prelude.{◌≡◌, ◌≤◌, length};
ghost use Rattle.slip.specs.Table.{reason_from, good_row, revoked_row, unknown_row, refusal_row, row_of, body_size};
ghost use Rattle.slip.specs.Slip.{verdict_in, card_under, parsed, read_of};

use answer::{Answer, Card, Verdict};

// A reason from its octet.
#[tactic(auto, unfolding(slip::specs::Table::reason_from))]
fn reason_from(n: u8) -> Option<u8>
    ensures { result ≡ reason_from n }
{
    if n == 255 {
        return None;
    }
    Some(n)
}

// What the numbers of a body say, where its kind is good.
#[tactic(auto, using(slip::specs::PlaceLaws::good_at))]
fn good_in(body: &[u8]) -> Verdict
    requires { 77 ≤ length body.now }
    ensures { result ≡ verdict_in 20 good_row body.now }
{
    let this = fields::value_at(body, 61, 8);
    let next = fields::value_at(body, 69, 8);
    Verdict::Good { this, next }
}

// What they say where it is revoked.
#[tactic(auto, using(slip::specs::PlaceLaws::revoked_at))]
fn revoked_in(body: &[u8]) -> Verdict
    requires { 86 ≤ length body.now }
    ensures { result ≡ verdict_in 20 revoked_row body.now }
{
    let this = fields::value_at(body, 61, 8);
    let next = fields::value_at(body, 69, 8);
    let at = fields::value_at(body, 77, 8);
    let reason = reason_from(body[85]);
    Verdict::Revoked {
        this,
        next,
        at,
        reason,
    }
}

// What they say where it is unknown.
#[tactic(auto, using(slip::specs::PlaceLaws::unknown_at))]
fn unknown_in(body: &[u8]) -> Verdict
    requires { 77 ≤ length body.now }
    ensures { result ≡ verdict_in 20 unknown_row body.now }
{
    let this = fields::value_at(body, 61, 8);
    let next = fields::value_at(body, 69, 8);
    Verdict::Unknown { this, next }
}

// What they say where it is a refusal.
#[tactic(auto, using(slip::specs::PlaceLaws::refusal_at))]
fn refusal_in(body: &[u8]) -> Verdict
    requires { 2 ≤ length body.now }
    ensures { result ≡ verdict_in 20 refusal_row body.now }
{
    let number = body[0];
    let status = body[1];
    Verdict::Refused { number, status }
}

// What the numbers of a body say, by its kind.
#[tactic(auto, unfolding(slip::specs::Table::body_size, slip::specs::Table::row_of, slip::specs::Table::row_in, slip::specs::Numbers::total, slip::specs::Slip::verdict_in))]
fn verdict_in(kind: u8, body: &[u8]) -> Verdict
    requires { body_size 20 (row_of kind) ≤ length body.now }
    ensures { result ≡ verdict_in 20 (row_of kind) body.now }
{
    match kind {
        1 => good_in(body),
        2 => revoked_in(body),
        3 => unknown_in(body),
        4 => refusal_in(body),
        _ => Verdict::Refused {
            number: 17,
            status: 0,
        },
    }
}

// The card of a body, by its kind: empty where it has none.
#[tactic(auto, unfolding(slip::specs::Slip::card_under))]
fn card_under(kind: u8, body: &[u8]) -> Card
    ensures { result ≡ card_under 20 (row_of kind) body.now }
{
    if slip::has_card(kind) {
        return fields::card_in(body);
    }
    answer::empty_card()
}

// What a slip says, its rules apart: no slip has a place.
#[tactic(auto, using(crate::proofs::ReadCases::parse_cases))]
fn parse(s: &[u8]) -> Answer
    ensures { result ≡ parsed 20 s.now }
{
    if s.len() == 0 {
        return answer::refuse(17, 0);
    }
    let kind = s[0];
    let size = slip::size_of(kind);
    if s.len() != size {
        return answer::refuse(17, 0);
    }
    let verdict = verdict_in(kind, &s[1..]);
    let card = card_under(kind, &s[1..]);
    Answer {
        verdict,
        card,
        place: None,
    }
}

// The answer of a slip; refusal 17 where it breaks the slip rules.
#[tactic(auto, unfolding(slip::specs::Slip::read_of))]
pub fn read_slip(s: &[u8]) -> Answer
    ensures { result ≡ read_of 20 s.now }
{
    let answer = parse(s);
    if slip::slip_fits(answer) {
        return answer;
    }
    answer::refuse(17, 0)
}
