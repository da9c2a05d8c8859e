// The response as a whole (refusals 2 to 9): judged once, whatever card is asked about.
ghost use Rattle.std.specs.Prelude.{◌+◌, ◌≤◌, ◌≡◌, length};
ghost use Rattle.rule_response.specs.Opened.{lacks, refusal_in, parts_opened, opened_of};

use crate::signs;
use read_response::{Parts, Refusal, Span};
use rules::Question;

// Whether the signer is a delegate and one of the three marks is missing (8).
#[tactic(auto, using(crate::proofs::OpenCases::mark_cases))]
fn lacks_mark(role: u8, marks: u8) -> bool
    ensures { result ≡ lacks role marks }
{
    role == 2 && marks % 8 != 7
}

// The first of 6 to 9 that applies, else 0, by the octets of the responder id and of the extensions.
#[tactic(auto, using(crate::proofs::OpenCases::refusal_cases))]
fn refusal_in(q: Question, name: &[u8], responder: &[u8], extensions: &[u8]) -> u8
    ensures { result ≡ refusal_in q name.now responder.now extensions.now }
{
    if q.verdict != 1 {
        return 6;
    }
    if !signs::signs(responder, q.signer, name) {
        return 7;
    }
    if lacks_mark(q.role, q.marks) {
        return 8;
    }
    if rule_tests::strange_in_response(extensions) {
        return 9;
    }
    0
}

// A basic response with these parts: where its entries are, without the header around them.
#[tactic(auto, using(crate::proofs::OpenCases::parts_cases))]
fn open_parts(q: Question, name: &[u8], s: &[u8], parts: Parts) -> Result<Span, Refusal>
    requires len_in_bounds { parts.responder.start + parts.responder.len ≤ length s.now }
    requires len_in_bounds_2 { parts.extensions.start + parts.extensions.len ≤ length s.now }
    ensures { result ≡ parts_opened q name.now s.now parts }
{
    let first = parts.responder.start;
    let last = first + parts.responder.len;
    let from = parts.extensions.start;
    let end = from + parts.extensions.len;
    let number = refusal_in(q, name, &s[first..last], &s[from..end]);
    if number != 0 {
        return Err(Refusal {
            number,
            status: 0,
            place: None,
        });
    }
    Ok(parts.entries)
}

// What a response is for a question, before any card is asked about: where its entries are, or why it is refused.
#[tactic(auto, using(crate::proofs::OpenCases::open_cases))]
pub fn open(q: Question, name: &[u8], s: &[u8]) -> Result<Span, Refusal>
    ensures { result ≡ opened_of q name.now s.now }
{
    let parts = read_response::judge(s)?;
    open_parts(q, name, s, parts)
}
