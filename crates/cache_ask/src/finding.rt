// Where a card's slip stands.
ghost use Rattle.std.specs.Prelude.{◌≡◌};
ghost use Rattle.freshness.specs.Fresh.{fresh_refusal};
ghost use Rattle.cache_ask.specs.Found.{card_in_range, ask_found, misses_at, found_in};

use crate::Sought;
use freshness::{Clock, Missed};

// The number of a rule that is missed, or 0.
fn number_of(fresh: Result<(), Missed>) -> u8
    ensures { result ≡ fresh_refusal fresh }
{
    match fresh {
        Ok(()) => 0,
        Err(Missed::Endless) => 13,
        Err(Missed::Reversed(_)) => 14,
        Err(Missed::Early(_)) => 15,
        Err(Missed::Late(_)) => 16,
    }
}

// The number of the rule that the times in a place miss, or 0.
#[tactic(auto, using(crate::proofs::Cases::misses))]
fn misses_at(p: &[u8], clock: Clock) -> u8
    ensures { result ≡ misses_at clock p.now }
{
    let this = cache_place::this_at(p);
    let next = cache_place::next_at(p);
    number_of(freshness::judge_times(this, Some(next), clock.now, clock.tolerance))
}

// Whether octets are a card within document 01's range: 61 of them, with a serial by the serial rule.
#[tactic(auto, using(crate::proofs::Cases::card_short, crate::proofs::Cases::card_long))]
fn card_fits(card: &[u8]) -> bool
    ensures { result ≡ card_in_range card.now }
{
    card.len() == 61 && answer::card_fits(fields::card_in(card))
}

// What is found in a place, or that there is none at this position.
#[tactic(auto, using(crate::proofs::Cases::found_cases))]
fn found_in(s: &[u8], i: usize, clock: Clock) -> Sought
    ensures { result ≡ found_in clock s.now i }
{
    if cache_rules::PLACES <= i {
        return Sought::NotHeld;
    }
    let p = cache_places::place_at(s, i);
    match misses_at(p, clock) {
        0 => Sought::At(i),
        number => Sought::Refused(number),
    }
}

// Where the slip of a card stands that counts at a time: 19 where the buffer is no cache; 1 where the
// card, the time or the tolerance is out of range; that it is not held; 15 or 16 by its times.
#[tactic(auto, using(crate::proofs::Cases::find_cases))]
pub fn find(s: &[u8], card: &[u8], clock: Clock) -> Sought
    ensures { result ≡ ask_found clock card.now s.now }
{
    if !cache_places::room_fits(s) {
        return Sought::Refused(19);
    }
    if !freshness::clock_fits(clock) {
        return Sought::Refused(1);
    }
    if !card_fits(card) {
        return Sought::Refused(1);
    }
    found_in(s, cache_places::held_at(s, card), clock)
}
