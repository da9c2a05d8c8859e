// Hashes, numbers and cards read from a part.
ghost use Rattle.std.specs.Prelude.{◌≡◌};
ghost use Rattle.fields.specs.Field.{field_at, value_at, card_in};

use answer::Card;

// The twenty octets at a place, or zeros where they are not all there.
#[tactic(auto, using(crate::specs::FieldLaws::field_short, crate::proofs::Cases::fields_whole))]
pub fn hash_at(s: &[u8], at: usize) -> [u8; 20]
    ensures { result ≡ field_at 20 s.now at }
{
    let mut hash = [0u8; 20];
    if s.len() < at || s.len() - at < 20 {
        return hash;
    }
    octets::put(&mut hash, 0, &s[at..at + 20]);
    hash
}

// The number of the width octets at a place, at most eight of them; 0 where they are not all there.
#[tactic(auto, using(crate::proofs::Cases::value_or))]
pub fn value_at(s: &[u8], at: usize, width: usize) -> u64
    ensures { result ≡ value_at s.now at width }
{
    octets::number_at(s, at, width).unwrap_or(0)
}

// The card at the start of a part of 61 octets: both hashes, the serial's length, the serial.
#[tactic(auto, using(crate::proofs::Cases::card_parts))]
pub fn card_in(s: &[u8]) -> Card
    ensures { result ≡ card_in 20 s.now }
{
    Card {
        name: hash_at(s, 0),
        key: hash_at(s, 20),
        serial: hash_at(s, 41),
        size: value_at(s, 40, 1) as usize,
    }
}
