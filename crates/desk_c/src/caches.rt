// The room's cache: filing a slip, and asking for a card.
ghost use Rattle.std.specs.Prelude.{◌<◌, ◌≡◌};
ghost use Rattle.cache_rules.specs.Cache.{filed_of, buffer_of};
ghost use Rattle.cache_rules.specs.Numbers.{filed_number, filed_count};
ghost use Rattle.cache_ask.specs.Found.{ask_found};
ghost use Rattle.desk_c.specs.Caches.{clock_at, Placed, found_number, slip_span, found_span};

use cache_ask::Sought;
use cache_rules::Filed;
use element::Span;
use freshness::Clock;

// The number of a filing's refusal, 0 where there is none.
fn filed_number(filed: Filed) -> usize
    ensures { result ≡ filed_number filed }
{
    match filed {
        Ok(_) => 0,
        Err(unfiled) => cache_file::number_of(unfiled) as usize,
    }
}

// How many places are filled after it.
fn filed_places(filed: Filed) -> usize
    ensures { result ≡ filed_count filed }
{
    filed.unwrap_or(0)
}

// Files a slip in the cache: 0 and how many places are then filled, or 19, 1, 17 or 20, no place counted
// and nothing written.
pub fn desk_cache_file(
    cache: &mut [u8],
    slip: &[u8],
    time: u64,
    tolerance: u64,
    places: &mut usize,
) -> usize
    ensures value { result ≡ filed_number (filed_of (clock_at time tolerance) cache.old slip.now) }
    ensures cache_after { cache.new ≡ buffer_of (clock_at time tolerance) cache.old slip.now }
    ensures places_after { places.new ≡ filed_count (filed_of (clock_at time tolerance) cache.old slip.now) }
{
    let clock = Clock {
        now: time,
        tolerance,
    };
    let filed = cache_file::file(cache, slip, clock);
    *places = filed_places(filed);
    filed_number(filed)
}

// The number of what is found of a card.
#[tactic(auto, unfolding(crate::specs::Caches::found_number))]
fn found_number(found: Sought) -> usize
    ensures { result ≡ found_number found }
{
    match found {
        Sought::At(_) => 0,
        Sought::NotHeld => 256,
        Sought::Refused(number) => number as usize,
    }
}

// Where the slip of a place is.
#[tactic(auto, unfolding(crate::specs::Caches::slip_span))]
fn slip_span(cache: &[u8], place: usize) -> Span
    requires { place < 64 }
    ensures { result ≡ slip_span cache.now place }
{
    let octets = cache_places::place_at(cache, place);
    let slip = cache_place::slip_at(octets);
    Span {
        start: cache_rules::WIDTH * place,
        len: slip.len(),
    }
}

// Where the slip that is found is.
#[tactic(auto, using(crate::proofs::CacheCases::span_placed), unfolding(crate::specs::Caches::found_span))]
fn found_span(cache: &[u8], found: Sought) -> Span
    requires { Placed found }
    ensures { result ≡ found_span cache.now found }
{
    match found {
        Sought::At(place) => slip_span(cache, place),
        Sought::NotHeld | Sought::Refused(_) => Span { start: 0, len: 0 },
    }
}

// Asks the cache for a card of 61 octets: 0 and where its slip is; or 19, 1, 15 or 16, or 256 where no
// place has the card, and an empty part.
#[tactic(auto, using(crate::proofs::CacheCases::find_placed))]
pub fn desk_cache_ask(
    cache: &[u8],
    card: &[u8],
    time: u64,
    tolerance: u64,
    from: &mut usize,
    len: &mut usize,
) -> usize
    ensures value { result ≡ found_number (ask_found (clock_at time tolerance) card.now cache.now) }
    ensures from_after { from.new ≡ (found_span cache.now (ask_found (clock_at time tolerance) card.now cache.now)).start }
    ensures len_after { len.new ≡ (found_span cache.now (ask_found (clock_at time tolerance) card.now cache.now)).len }
{
    let clock = Clock {
        now: time,
        tolerance,
    };
    let found = cache_ask::find(cache, card, clock);
    let span = found_span(cache, found);
    *from = span.start;
    *len = span.len;
    found_number(found)
}
