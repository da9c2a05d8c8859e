// The search over the entries.
ghost use Rattle.std.specs.Prelude.{◌≡◌, false, ◌+◌, ◌^◌, ◌≤◌, ◌<◌, length};
ghost use Rattle.element.specs.Header.{header_of};
ghost use Rattle.rule_search.specs.Search.{card_with, begins_with, is_here, seen_of, noted, is_two, search_of};

use crate::{Found, Seen};
use answer::Card;

// Whether the content of an entry begins with a CertID that has these fields.
#[tactic(auto, using(crate::proofs::HereCases::begins_cases))]
fn begins(s: &[u8], name: &[u8], key: &[u8], serial: &[u8]) -> bool
    requires { (length name.now ≤ 127) × (length key.now ≤ 127) × (length serial.now ≤ 127) }
    ensures { result ≡ begins_with (card_with name.now key.now serial.now) s.now }
{
    match read_content::expect(s, 0x30) {
        Err(_) => false,
        Ok(spot) => {
            let end = spot.start + spot.len;
            rule_matching::is_for(&s[spot.start..end], name, key, serial)
        }
    }
}

// What is at the head of s, where that is no entry.
#[tactic(auto, using(crate::proofs::HereCases::pass_sum), unfolding(crate::specs::Search::seen_of))]
fn pass(s: &[u8]) -> Option<Seen>
    ensures { result ≡ seen_of false (header_of s.now) }
{
    let header = element::read_header(s).ok()?;
    let size = header.start + header.len;
    Some(Seen { size, here: false })
}

// What is at the head of s.
#[tactic(auto, using(crate::proofs::HereCases::look_cases))]
fn look(s: &[u8], name: &[u8], key: &[u8], serial: &[u8]) -> Option<Seen>
    requires { (length name.now ≤ 127) × (length key.now ≤ 127) × (length serial.now ≤ 127) }
    ensures { result ≡ seen_of (is_here (card_with name.now key.now serial.now) s.now)
        (header_of s.now) }
{
    match read_content::expect(s, 0x30) {
        Err(_) => pass(s),
        Ok(spot) => {
            let size = spot.start + spot.len;
            let here = begins(&s[spot.start..size], name, key, serial);
            Some(Seen { size, here })
        }
    }
}

// What is found after one entry more, by whether that entry is for the card.
#[tactic(auto, unfolding(crate::specs::Search::noted))]
fn note(here: bool, ordinal: usize, start: usize, len: usize, found: Found) -> Found
    requires { ordinal + 1 < 2 ^ 64 }
    ensures { result ≡ noted here ordinal start len found }
{
    match found {
        Found::None(_) if here => Found::One {
            ordinal,
            start,
            len,
        },
        Found::None(_) => Found::None(ordinal + 1),
        Found::One { ordinal: first, .. } if here => Found::Two {
            first,
            second: ordinal,
        },
        _ => found,
    }
}

// Whether two were found.
#[tactic(auto, unfolding(crate::specs::Search::is_two))]
fn are_two(found: Found) -> bool
    ensures { result ≡ is_two found }
{
    matches!(found, Found::Two { .. })
}

// The search, with the card's fields lent: its loop leaves off at the second entry for the card.
#[tactic(auto, using(crate::proofs::SearchTurns::turn_cases))]
fn search_with(s: &[u8], name: &[u8], key: &[u8], serial: &[u8]) -> Found
    requires { (length name.now ≤ 127) × (length key.now ≤ 127) × (length serial.now ≤ 127) }
    ensures { result ≡ search_of (card_with name.now key.now serial.now) s.now }
{
    let mut at = 0;
    let mut ordinal = 0;
    let mut found = Found::None(0);
    'entries: while at < s.len() {
        let Some(seen) = look(&s[at..], name, key, serial) else {
            return found;
        };
        found = note(seen.here, ordinal, at, seen.size, found);
        if are_two(found) {
            return found;
        }
        at += seen.size;
        ordinal += 1;
    }
    found
}

// Which of the entries, one after the other to the end of s, are for the card: the search leaves off
// at the second.
#[tactic(auto, using(crate::proofs::LentCases::lent_cases))]
pub fn search(s: &[u8], card: Card) -> Found
    ensures { result ≡ search_of card s.now }
{
    let size = rule_matching::serial_size(card.size);
    search_with(s, &card.name, &card.key, &card.serial[..size])
}
