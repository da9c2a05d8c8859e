// Whether a buffer is a cache.
ghost use Rattle.std.specs.Prelude.{◌≡◌, suc, ◌<◌, length, get_or, []};
ghost use Rattle.cache_room.specs.Room.{cards_once};
ghost use Rattle.cache_rules.specs.Place.{card_at};
ghost use Rattle.cache_rules.specs.Cache.{all_fit, is_cache};
ghost use Rattle.cache_places.specs.Evenly.{evenly};
ghost use Rattle.cache_places.specs.Marks.{mark_of, Marked, lone_of};

use crate::search;

// Whether each place fits.
#[tactic(auto, using(crate::proofs::Turns::fit_turns))]
fn places_fit(s: &[u8]) -> bool
    ensures { result ≡ all_fit (evenly s.now) }
{
    for i in 0..64 {
        let p = search::place_at(s, i);
        if !cache_place::place_fits(p) {
            return false;
        }
    }
    true
}

// A number that the octets of a card have: two cards with two numbers are two cards. It is made of the
// serial's field and of the issuer's name hash, so that one serial of two issuers has two numbers as a rule.
#[tactic(auto, using(crate::proofs::Cases::mark_is))]
fn mark_of(card: &[u8]) -> usize
    ensures { result ≡ mark_of card.now }
{
    let first = fields::value_at(card, 41, 8);
    let second = fields::value_at(card, 49, 8);
    let last = fields::value_at(card, 57, 4);
    let issuer = fields::value_at(card, 0, 8);
    ((first ^ second ^ last ^ issuer) % 1021) as usize
}

// Whether a place's card is in none of the places before it; marks the card as met. Only where its mark
// was met before are the cards themselves compared.
#[tactic(auto, using(crate::proofs::LoneCases::lone_cases))]
fn lone(s: &[u8], i: usize, marks: &mut [u8]) -> bool
    requires i_bound { i < 64 }
    requires marked { Marked (evenly s.now) i marks.old }
    ensures value { result ≡ lone_of (evenly s.now) i }
    ensures marked_2 { Marked (evenly s.now) (suc i) marks.new }
{
    let p = search::place_at(s, i);
    let card = cache_place::card_at(p);
    if card.is_empty() {
        return true;
    }
    let mark = mark_of(card);
    let met = marks[mark];
    marks[mark] = 1;
    met == 0 || i <= search::held_among(s, card, i)
}

// Whether no card stands in two places.
#[tactic(auto, using(crate::proofs::LoneCases::apart_turns))]
fn cards_differ(s: &[u8]) -> bool
    ensures { result ≡ cards_once card_at (evenly s.now) }
{
    let mut marks = [0u8; 1021];
    for i in 0..64 {
        if !lone(s, i, &mut marks) {
            return false;
        }
    }
    true
}

// Whether a buffer is a cache: 5,568 octets, each of the 64 places fits, and no card stands in two of
// them.
#[tactic(auto, using(crate::proofs::Cases::room_cases))]
pub fn room_fits(s: &[u8]) -> bool
    ensures { result ≡ is_cache s.now }
{
    s.len() == 5568 && places_fit(s) && cards_differ(s)
}
