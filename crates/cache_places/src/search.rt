// A place, a card's place, one that may be taken, and how many are filled.
ghost use Rattle.std.specs.Prelude.{◌≡◌, cond, suc, ◌≤◌, length, get_or, take, []};
ghost use Rattle.cache_room.specs.Room.{is_empty, held_at, is_free, free_at};
ghost use Rattle.cache_room.specs.Room as room;
ghost use Rattle.cache_rules.specs.Place.{card_at};
ghost use Rattle.cache_place.specs.Times.{late_at};
ghost use Rattle.cache_places.specs.Evenly.{evenly};

use freshness::Clock;

// The octets of a place; none behind the last one.
#[tactic(auto, using(crate::proofs::Cases::place_cases))]
pub fn place_at<'a>(s: &'a [u8], i: usize) -> &'a [u8]
    ensures { result.now ≡ get_or (evenly s.now) i [] }
{
    if 64 <= i {
        return &s[..0];
    }
    let width = s.len() / 64;
    let start = width * i;
    let end = start + width;
    &s[start..end]
}

// Which of the first n places has a card; n where none has.
#[tactic(auto, using(crate::proofs::Turns::held_turns))]
pub(crate) fn held_among(s: &[u8], card: &[u8], n: usize) -> usize
    requires { n ≤ 64 }
    ensures { result ≡ held_at card_at card.now (take n (evenly s.now)) }
{
    for i in 0..n {
        let p = place_at(s, i);
        let own = cache_place::card_at(p);
        if octets::same(own, card) {
            return i;
        }
    }
    n
}

// Which place has a card; 64 where none has.
#[tactic(auto, using(crate::proofs::Cases::held_whole))]
pub fn held_at(s: &[u8], card: &[u8]) -> usize
    ensures { result ≡ held_at card_at card.now (evenly s.now) }
{
    held_among(s, card, 64)
}

// Whether a place may be taken: it is empty, or late.
#[tactic(auto, using(crate::proofs::Cases::free_empty, crate::proofs::Cases::free_late))]
fn is_free(p: &[u8], clock: Clock) -> bool
    ensures { result ≡ is_free card_at (late_at clock) p.now }
{
    let own = cache_place::card_at(p);
    own.is_empty() || cache_place::is_late(p, clock)
}

// The first place that may be taken; 64 where there is none.
#[tactic(auto, using(crate::proofs::Turns::free_turns))]
pub fn free_at(s: &[u8], clock: Clock) -> usize
    ensures { result ≡ free_at card_at (late_at clock) (evenly s.now) }
{
    for i in 0..64 {
        let p = place_at(s, i);
        if is_free(p, clock) {
            return i;
        }
    }
    64
}

// How many are filled after one place more.
#[tactic(auto, using(crate::proofs::Cases::more_empty, crate::proofs::Cases::more_filled))]
fn one_more(n: usize, p: &[u8]) -> usize
    requires { n ≤ 64 }
    ensures { result ≡ cond (is_empty card_at p.now) n (suc n) }
{
    let own = cache_place::card_at(p);
    if own.is_empty() { n } else { n + 1 }
}

// How many places are filled.
#[tactic(auto, using(crate::proofs::Turns::count_turns))]
pub fn count(s: &[u8]) -> usize
    ensures { result ≡ room.count card_at (evenly s.now) }
{
    let mut n = 0;
    for i in 0..64 {
        let p = place_at(s, i);
        n = one_more(n, p);
    }
    n
}
