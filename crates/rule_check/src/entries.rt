// One entry (refusals 12 to 16), and what is accepted.
ghost use Rattle.std.specs.Prelude.{◌+◌, ◌≤◌, ◌≡◌, length};
ghost use Rattle.rule_check.specs.EntryRuled.{verdict_for, fresh_ruled, until_ruled, view_ruled, seen_ruled};

use answer::{Answer, Card, Verdict};
use freshness::Missed;
use read_entry_values::{Standing, View};
use rules::Question;

// What a status says, with thisUpdate and nextUpdate.
#[tactic(auto, unfolding(crate::specs::EntryRuled::verdict_for))]
fn verdict_for(standing: Standing, this: u64, next: u64) -> Verdict
    ensures { result ≡ verdict_for standing this next }
{
    match standing {
        Standing::Good => Verdict::Good { this, next },
        Standing::Unknown => Verdict::Unknown { this, next },
        Standing::Revoked { at, reason } => Verdict::Revoked {
            this,
            next,
            at,
            reason,
        },
    }
}

// By the entry's times: refused, or accepted for the card.
#[tactic(auto, unfolding(crate::specs::EntryRuled::fresh_ruled))]
fn rule_fresh(
    card: Card,
    standing: Standing,
    this: u64,
    next: u64,
    fresh: Result<(), Missed>,
) -> Answer
    ensures { result ≡ fresh_ruled card standing this next fresh }
{
    match fresh {
        Err(Missed::Endless) => answer::refuse(13, 0),
        Err(Missed::Reversed(_)) => answer::refuse(14, 0),
        Err(Missed::Early(_)) => answer::refuse(15, 0),
        Err(Missed::Late(_)) => answer::refuse(16, 0),
        Ok(()) => {
            let verdict = verdict_for(standing, this, next);
            Answer {
                verdict,
                card,
                place: None,
            }
        }
    }
}

// By the entry's status and times, at the question's time.
#[tactic(auto, unfolding(crate::specs::EntryRuled::until_ruled))]
fn rule_until(q: Question, standing: Standing, this: u64, until: Option<u64>) -> Answer
    ensures { result ≡ until_ruled q standing this until }
{
    let Some(next) = until else {
        return answer::refuse(13, 0);
    };
    let fresh = freshness::judge_times(this, Some(next), q.now, q.tolerance);
    rule_fresh(q.card, standing, this, next, fresh)
}

// By the entry's values, with its extensions first.
#[tactic(auto, using(crate::proofs::EntryCases::view_cases))]
fn rule_view(q: Question, part: &[u8], view: View) -> Answer
    requires { view.from + view.len ≤ length part.now }
    ensures { result ≡ view_ruled q part.now view }
{
    let end = view.from + view.len;
    if rule_tests::strange_in_entry(&part[view.from..end]) {
        return answer::refuse(12, 0);
    }
    rule_until(q, view.standing, view.this, view.until)
}

// The answer for an entry that was judged, where it is the only one for the card.
#[tactic(auto, using(crate::proofs::EntryCases::seen_end, crate::proofs::EntryCases::seen_is))]
pub(crate) fn rule_entry(q: Question, part: &[u8]) -> Answer
    ensures { result ≡ seen_ruled q part.now }
{
    let view = read_entry_values::look_at(part);
    rule_view(q, part, view)
}
