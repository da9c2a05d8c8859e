// Whether an answer counts at a time (document 01, refusals 13 to 16): from its thisUpdate to its
// nextUpdate plus a tolerance, both included.
//
// The functions take any numbers and have no requirement. Here alone an answer's times are judged.
#![tactic(auto)]

ghost use Rattle.std.specs.Prelude.{◌≡◌};
ghost use Rattle.freshness.specs.Clock.{clock_ok};
ghost use Rattle.freshness.specs.Fresh.{fresh_of};

// When it is: the time now, in seconds since 1970, and how many seconds past its nextUpdate an answer
// still counts.
#[derive(Clone, Copy, Debug, PartialEq, Eq)]
pub struct Clock {
    pub now: u64,
    pub tolerance: u64,
}

// The first rule that is missed, and by how many seconds.
#[derive(Clone, Copy, Debug, PartialEq, Eq)]
pub enum Missed {
    // There is no nextUpdate (13).
    Endless,
    // nextUpdate is before thisUpdate (14).
    Reversed(u64),
    // thisUpdate is after now (15).
    Early(u64),
    // now is after nextUpdate plus tolerance (16).
    Late(u64),
}

// Judges thisUpdate and nextUpdate, if there is one, at a time, with a tolerance.
#[tactic(auto, using(crate::proofs::Cases::judge_endless, crate::proofs::Cases::judge_reversed, crate::proofs::Cases::judge_late, crate::proofs::Cases::judge_tolerated))]
pub fn judge_times(this: u64, next: Option<u64>, now: u64, tolerance: u64) -> Result<(), Missed>
    ensures { result ≡ fresh_of this next now tolerance }
{
    let Some(end) = next else {
        return Err(Missed::Endless);
    };
    if end < this {
        return Err(Missed::Reversed(this - end));
    }
    if now < this {
        return Err(Missed::Early(this - now));
    }
    if now <= end {
        return Ok(());
    }
    if tolerance < now - end {
        return Err(Missed::Late(now - (end + tolerance)));
    }
    Ok(())
}

// Whether a time and a tolerance are in range (document 01, refusal 1).
#[tactic(auto, using(crate::proofs::ClockCases::clock_fit, crate::proofs::ClockCases::clock_unfit))]
pub fn clock_fits(clock: Clock) -> bool
    ensures { result ≡ clock_ok clock }
{
    clock.now <= calendar::LAST_SECOND && clock.tolerance <= 3600
}
