// What is told of a card.
ghost use Rattle.std.specs.Prelude.{◌≡◌, take, drop};
ghost use Rattle.cache_rules.specs.Cache.{told, ask_of};
ghost use Rattle.cache_ask.specs.Found.{card_or_zeros, told_in};

use crate::{Sought, finding};
use answer::{Answer, Card, Verdict};
use cache_rules::Told;
use freshness::Clock;

// The card as the slip of a good answer has it, after the kind; zeros where its serial is out of range.
#[tactic(auto, using(crate::proofs::Cases::card_slip))]
fn card_slip(card: Card) -> [u8; 78]
    ensures { take 61 (drop 1 result) ≡ card_or_zeros card }
{
    let mut slip = [0u8; 78];
    let answer = Answer {
        verdict: Verdict::Good { this: 0, next: 0 },
        card,
        place: None,
    };
    slip_write::write_slip(answer, &mut slip);
    slip
}

// An answer as it is told, a refusal's too.
#[tactic(auto, using(crate::proofs::Cases::tell_says))]
fn tell(answer: Answer) -> Told
    ensures { result ≡ told answer }
{
    Told {
        asked: Some(answer.verdict),
        card: answer.card,
    }
}

// What is told of what was found.
#[tactic(auto, using(crate::proofs::Cases::tell_cases))]
fn tell_found(s: &[u8], found: Sought) -> Told
    ensures { result ≡ told_in s.now found }
{
    match found {
        Sought::At(i) => {
            let p = cache_places::place_at(s, i);
            let slip = cache_place::slip_at(p);
            tell(slip_read::read_slip(slip))
        }
        Sought::NotHeld => Told {
            asked: None,
            card: answer::empty_card(),
        },
        Sought::Refused(number) => tell(answer::refuse(number, 0)),
    }
}

// Asks for a card at a time: what its slip says. 19 where the buffer is no cache; 1 where the card, the
// time or the tolerance is out of range; that it is not held; 15 or 16 by the slip's times.
pub fn ask(s: &[u8], card: Card, clock: Clock) -> Told
    ensures { result ≡ ask_of clock card s.now }
{
    let slip = card_slip(card);
    let found = finding::find(s, &slip[1..62], clock);
    tell_found(s, found)
}
