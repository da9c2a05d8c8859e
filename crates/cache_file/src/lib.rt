// Filing a slip in the room's cache (document 02, C-11).
//
// No public function has a requirement: what can not be filed is refused, each refusal has its number, and the
// buffer is as it was.
#![tactic(auto)]

ghost use Rattle.std.specs.Prelude.{◌≡◌, true, ◌*◌, ◌≤◌, ◌<◌, length, Ok};
ghost use Rattle.octets.specs.Buffer.{put_in};
ghost use Rattle.freshness.specs.Clock.{clock_ok};
ghost use Rattle.cache_room.specs.Room.{count};
ghost use Rattle.cache_rules.specs.Place.{card_at, is_said, place_of, says_of};
ghost use Rattle.cache_rules.specs.Cache.{is_cache, filed_of, buffer_of};
ghost use Rattle.cache_rules.specs.Numbers.{unfiled_number};
ghost use Rattle.cache_places.specs.Evenly.{evenly};
ghost use Rattle.cache_file.specs.Put.{held_filed, buffer_held, new_filed, new_in};

use cache_rules::{Filed, Unfiled};
use freshness::Clock;

// Puts a slip into a place, with zeros after it, and counts the filled places.
#[tactic(auto, using(crate::proofs::Cases::place_written, crate::proofs::Cases::put_count))]
fn put_at(s: &mut [u8], i: usize, slip: &[u8]) -> usize
    requires s_len { length s.old ≡ 5568 }
    requires i_bound { i < 64 }
    requires slip_len_bound { length slip.now ≤ 87 }
    ensures value { result ≡ count card_at (evenly (put_in s.old (87 * i) (place_of slip.now))) }
    ensures s_after { s.new ≡ put_in s.old (87 * i) (place_of slip.now) }
{
    let mut place = [0u8; cache_rules::WIDTH];
    octets::put(&mut place, 0, slip);
    octets::put(s, cache_rules::WIDTH * i, &place);
    cache_places::count(s)
}

// Files a slip for a card that has this place, which stays as it is where its slip is later: how many
// places are then filled.
#[tactic(auto, using(crate::proofs::Cases::held_cases))]
fn put_held(s: &mut [u8], i: usize, slip: &[u8]) -> usize
    requires s_len { length s.old ≡ 5568 }
    requires i_bound { i < 64 }
    requires slip_len_bound { length slip.now ≤ 87 }
    ensures value { Ok result ≡ held_filed s.old i slip.now }
    ensures s_after { s.new ≡ buffer_held s.old i slip.now }
{
    let held = cache_places::place_at(s, i);
    let this = cache_place::this_at(held);
    if cache_place::this_at(slip) < this {
        return cache_places::count(s);
    }
    put_at(s, i, slip)
}

// Files a slip for a card that has no place: in the first that may be taken, or 20 where there is none.
#[tactic(auto, using(crate::proofs::Cases::new_cases))]
fn put_new(s: &mut [u8], slip: &[u8], clock: Clock) -> Filed
    requires s_len { length s.old ≡ 5568 }
    requires slip_len_bound { length slip.now ≤ 87 }
    ensures value { result ≡ new_filed clock s.old slip.now }
    ensures s_after { s.new ≡ new_in clock s.old slip.now }
{
    let i = cache_places::free_at(s, clock);
    if cache_rules::PLACES <= i {
        return Err(Unfiled::Full);
    }
    Ok(put_at(s, i, slip))
}

// Files a slip that may be filed in a cache.
#[tactic(auto, using(crate::proofs::Cases::slip_cases))]
fn put_slip(s: &mut [u8], slip: &[u8], clock: Clock) -> Filed
    requires s_value { is_cache s.old ≡ true }
    requires clock_value { clock_ok clock ≡ true }
    requires slip_value { is_said (says_of slip.now) ≡ true }
    requires s_len { length s.old ≡ 5568 }
    requires slip_len_bound { length slip.now ≤ 87 }
    ensures value { result ≡ filed_of clock s.old slip.now }
    ensures s_after { s.new ≡ buffer_of clock s.old slip.now }
{
    let card = cache_place::card_at(slip);
    let i = cache_places::held_at(s, card);
    if i < cache_rules::PLACES {
        return Ok(put_held(s, i, slip));
    }
    put_new(s, slip, clock)
}

// Files a slip: how many places are then filled. 19 where the buffer is no cache; 1 where the time or
// the tolerance is out of range; 17 where the octets are no slip of kind 01 to 03; 20 where its card has
// no place and none is empty or stale.
#[tactic(auto, using(crate::proofs::Cases::file_cases))]
pub fn file(s: &mut [u8], slip: &[u8], clock: Clock) -> Filed
    ensures value { result ≡ filed_of clock s.old slip.now }
    ensures s_after { s.new ≡ buffer_of clock s.old slip.now }
{
    if !cache_places::room_fits(s) {
        return Err(Unfiled::NoCache);
    }
    if !freshness::clock_fits(clock) {
        return Err(Unfiled::Clock);
    }
    if !cache_place::slip_fits(slip) {
        return Err(Unfiled::Slip);
    }
    put_slip(s, slip, clock)
}

// The number of a refusal.
pub fn number_of(unfiled: Unfiled) -> u8
    ensures { result ≡ unfiled_number unfiled }
{
    match unfiled {
        Unfiled::NoCache => 19,
        Unfiled::Clock => 1,
        Unfiled::Slip => 17,
        Unfiled::Full => 20,
    }
}
