// The marks of the places: 0 empty, 1 its slip counts, 15 its thisUpdate is in the future, 16 stale.
ghost use Rattle.std.specs.Prelude.{◌≡◌};
ghost use Rattle.cache_places.specs.Evenly.{evenly};
ghost use Rattle.cache_line.specs.Marks.{mark_at, marks_of};

use freshness::Clock;

// The mark of a place at a time.
#[tactic(auto, using(crate::proofs::Turns::mark_cases))]
fn mark_at(p: &[u8], clock: Clock) -> u8
    ensures { result ≡ mark_at clock p.now }
{
    let card = cache_place::card_at(p);
    if card.is_empty() {
        return 0;
    }
    let this = cache_place::this_at(p);
    if clock.now < this {
        return 15;
    }
    if cache_place::is_late(p, clock) {
        return 16;
    }
    1
}

// The marks of the places, in order.
#[tactic(auto, using(crate::proofs::Turns::marked_turns))]
pub(crate) fn marks_of(s: &[u8], clock: Clock) -> [u8; 64]
    ensures { result ≡ marks_of clock (evenly s.now) }
{
    let mut marks = [0u8; cache_rules::PLACES];
    for i in 0..64 {
        let p = cache_places::place_at(s, i);
        marks[i] = mark_at(p, clock);
    }
    marks
}
