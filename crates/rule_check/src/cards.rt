// One card (refusals 10 to 16), and the check.
ghost use Rattle.std.specs.Prelude.{◌≡◌};
ghost use Rattle.rules.specs.Ruling.{answer_of};
ghost use Rattle.rule_response.specs.Opened.{opened_of};
ghost use Rattle.rule_check.specs.CardRuled.{card_ruled, opened_ruled};

use crate::entries;
use answer::Answer;
use rule_search::Found;
use rules::Question;

// What a response that is not refused says of the card, by the octets of its entries.
#[tactic(auto, using(crate::proofs::CardCases::card_cases))]
fn rule_card(q: Question, part: &[u8]) -> Answer
    ensures { result ≡ card_ruled q part.now }
{
    match rule_search::search(part, q.card) {
        Found::None(_) => answer::refuse(10, 0),
        Found::Two { .. } => answer::refuse(11, 0),
        Found::One { start, len, .. } => {
            let end = start + len;
            entries::rule_entry(q, &part[start..end])
        }
    }
}

// What a response says for a question whose ranges are kept: judged as a whole, then for the card.
#[tactic(auto, using(crate::proofs::CheckCases::rule_cases), unfolding(crate::specs::CardRuled::opened_ruled))]
fn rule(q: Question, name: &[u8], s: &[u8]) -> Answer
    ensures { result ≡ opened_ruled q s.now (opened_of q name.now s.now) }
{
    match rule_response::open(q, name, s) {
        Err(refusal) => answer::refuse_at(refusal.number, refusal.status, refusal.place),
        Ok(entries) => {
            let end = entries.start + entries.len;
            rule_card(q, &s[entries.start..end])
        }
    }
}

// What a response says for a question: the first refusal that applies, else what the only entry for
// the card says. An error response is told before anything else of it is read.
pub fn check(q: Question, name: &[u8], s: &[u8]) -> Answer
    ensures { result ≡ answer_of q name.now s.now }
{
    if !rule_tests::question_fits(q, name) {
        return answer::refuse(1, 0);
    }
    let status = read_errors::error_status(s);
    if status != 0 {
        return answer::refuse(4, status);
    }
    rule(q, name, s)
}
