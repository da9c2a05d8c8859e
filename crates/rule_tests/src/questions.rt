// Whether a question is in range, field by field.
ghost use Rattle.std.specs.Prelude.{◌≡◌};
ghost use Rattle.rules.specs.Question.{in_range};

use rules::Question;

// Whether the question and the signer's Name are in range.
#[tactic(auto, unfolding(rules::specs::Question::in_range))]
pub fn question_fits(q: Question, name: &[u8]) -> bool
    ensures { result ≡ in_range q name.now }
{
    q.now <= calendar::LAST_SECOND
        && q.tolerance <= 3600
        && q.verdict <= 2
        && 1 <= q.role
        && q.role <= 3
        && q.marks <= 7
        && name.len() <= 256
        && answer::card_fits(q.card)
}
