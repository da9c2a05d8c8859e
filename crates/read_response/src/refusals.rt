// The refusal of a response, before any question is asked.
ghost use Rattle.std.specs.Prelude.{◌≡◌, Err};
ghost use Rattle.read_response.specs.Parts.{judged_of};
ghost use Rattle.read_response.specs.Refusals.{refusal_of};

use crate::{Parts, Refusal, Unread, whole};

// Document 01's number for what a response is, with its status and its place.
#[tactic(auto, unfolding(crate::specs::Refusals::refusal_of))]
pub fn refusal_of(judged: Result<Parts, Unread>) -> Refusal
    ensures { result ≡ refusal_of judged }
{
    match judged {
        Ok(_) => Refusal {
            number: 0,
            status: 0,
            place: None,
        },
        Err(Unread::TooLong) => Refusal {
            number: 2,
            status: 0,
            place: None,
        },
        Err(Unread::Unfit(misfit)) => Refusal {
            number: 3,
            status: 0,
            place: Some(misfit.place),
        },
        Err(Unread::Failed(status)) => Refusal {
            number: 4,
            status,
            place: None,
        },
        Err(Unread::OtherType) => Refusal {
            number: 5,
            status: 0,
            place: None,
        },
    }
}

// What is no basic response is refused.
impl From<Unread> for Refusal {
    ghost from_gives = { λ u r. r ≡ refusal_of (Err u) };

    fn from(unread: Unread) -> Refusal {
        refusal_of(Err(unread))
    }
}

// The refusal of a response, before any question is asked.
pub fn refuse(s: &[u8]) -> Refusal
    ensures { result ≡ refusal_of (judged_of s.now) }
{
    refusal_of(whole::judge(s))
}
