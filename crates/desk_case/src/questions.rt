// The question's octets, and the answer.
ghost use Rattle.std.specs.Prelude.{◌≡◌, true, length};
ghost use Rattle.desk_question.specs.Asked.{question_in, question_ok, asked};

use answer::Answer;
use rules::Question;

// Whether a question has its exact length, kind 51 hex, a Name of at most 256 octets, and zeros after
// the Name.
#[tactic(auto, using(crate::proofs::Cases::form_cases))]
fn form_fits(question: &[u8]) -> bool
    ensures { result ≡ question_ok 20 question.now }
{
    if question.len() != 353 || question[0] != 0x51 {
        return false;
    }
    let size = fields::value_at(question, 95, 2) as usize;
    size <= 256 && answer::all_zero(&question[97 + size..])
}

// The question of octets with their exact length, but for the signer's Name.
#[tactic(auto, using(crate::proofs::Cases::question_parts))]
fn question_in(question: &[u8]) -> Question
    requires { length question.now ≡ 353 }
    ensures { result ≡ question_in 20 question.now }
{
    let card = fields::card_in(&question[1..]);
    let now = fields::value_at(question, 62, 8);
    let tolerance = fields::value_at(question, 70, 2);
    let signer = fields::hash_at(question, 75);
    Question {
        card,
        now,
        tolerance,
        verdict: question[72],
        role: question[73],
        marks: question[74],
        signer,
    }
}

// What a response says for a question that keeps its form.
#[tactic(auto, using(crate::proofs::Cases::asked_cases))]
fn ask_kept(question: &[u8], response: &[u8]) -> Answer
    requires { question_ok 20 question.now ≡ true }
    ensures { result ≡ asked question.now response.now }
{
    let q = question_in(question);
    let size = fields::value_at(question, 95, 2) as usize;
    let end = 97 + size;
    rule_check::check(q, &question[97..end], response)
}

// What a response says for a question, both as octets.
#[tactic(auto, using(crate::proofs::Cases::asked_out, crate::proofs::Cases::asked_form))]
pub fn ask(question: &[u8], response: &[u8]) -> Answer
    ensures { result ≡ asked question.now response.now }
{
    if !form_fits(question) {
        return answer::refuse(1, 0);
    }
    ask_kept(question, response)
}
