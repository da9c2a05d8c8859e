// The slip rules.
ghost use Rattle.std.specs.Prelude.{◌≡◌};
ghost use Rattle.slip.specs.Rules.{times_ok, reason_fits, error_ok, status_fits, verdict_ok};
ghost use Rattle.answer.specs.declared.Verdict.TheVariants.{Revoked, Refused};
ghost use Rattle.slip.specs.Slip.{card_fits, slip_ok};

use crate::kinds;
use answer::{Answer, Card, Verdict};

// Whether thisUpdate is not after nextUpdate, and nextUpdate is a time.
#[tactic(auto, unfolding(crate::specs::Rules::times_ok))]
pub fn times_fit(this: u64, next: u64) -> bool
    ensures { result ≡ times_ok this next }
{
    this <= next && next <= calendar::LAST_SECOND
}

// Whether a reason is 0 to 10 but not 7, or absent.
#[tactic(auto, unfolding(crate::specs::Rules::reason_fits))]
pub fn reason_fits(reason: Option<u8>) -> bool
    ensures { result ≡ reason_fits reason }
{
    match reason {
        Some(n) => n != 7 && n <= 10,
        None => true,
    }
}

// Whether a status is that of an error: 1, 2, 3, 5 or 6.
#[tactic(auto, unfolding(crate::specs::Rules::error_ok))]
fn error_fits(status: u8) -> bool
    ensures { result ≡ error_ok status }
{
    status != 4 && 1 <= status && status <= 6
}

// Whether the status goes with the number.
#[tactic(auto, unfolding(crate::specs::Rules::status_fits))]
fn status_fits(number: u8, status: u8) -> bool
    ensures { result ≡ status_fits number status }
{
    if number == 4 {
        return error_fits(status);
    }
    status == 0
}

// Whether a refusal keeps the rules.
#[tactic(auto, unfolding(crate::specs::Rules::verdict_ok, crate::specs::Rules::number_ok))]
fn refusal_fits(number: u8, status: u8) -> bool
    ensures { result ≡ verdict_ok (Refused number status) }
{
    1 <= number && number <= 16 && status_fits(number, status)
}

// Whether what is revoked keeps the rules.
#[tactic(auto, unfolding(crate::specs::Rules::verdict_ok))]
fn revoked_fits(this: u64, next: u64, at: u64, reason: Option<u8>) -> bool
    ensures { result ≡ verdict_ok (Revoked this next at reason) }
{
    times_fit(this, next) && at <= calendar::LAST_SECOND && reason_fits(reason)
}

// Whether a verdict keeps the rules.
#[tactic(auto, unfolding(crate::specs::Rules::verdict_ok))]
fn verdict_fits(verdict: Verdict) -> bool
    ensures { result ≡ verdict_ok verdict }
{
    match verdict {
        Verdict::Good { this, next } => times_fit(this, next),
        Verdict::Revoked {
            this,
            next,
            at,
            reason,
        } => revoked_fits(this, next, at, reason),
        Verdict::Unknown { this, next } => times_fit(this, next),
        Verdict::Refused { number, status } => refusal_fits(number, status),
    }
}

// Whether the card of an answer of this kind keeps the rules: empty where the slip has none.
#[tactic(auto, unfolding(crate::specs::Slip::card_fits))]
fn card_fits(kind: u8, card: Card) -> bool
    ensures { result ≡ card_fits kind card }
{
    if kinds::has_card(kind) {
        return answer::card_fits(card);
    }
    let empty = answer::empty_card();
    answer::same_card(card, empty)
}

// Whether an answer keeps the slip rules.
#[tactic(auto, unfolding(crate::specs::Slip::slip_ok))]
pub fn slip_fits(answer: Answer) -> bool
    ensures { result ≡ slip_ok answer }
{
    let verdict = answer.verdict;
    verdict_fits(verdict) && card_fits(kinds::kind_of(verdict), answer.card)
}
