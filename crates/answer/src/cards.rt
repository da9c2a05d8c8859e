// The card: the empty one, one judged, two compared.
ghost use Rattle.std.specs.Prelude.{◌≡◌};
ghost use Rattle.answer.specs.Card.{all_zero, field_ok, card_ok, empty_card, same_card};

use crate::Card;

// The card that a refusal hands out.
#[tactic(auto, unfolding(crate::specs::Card::empty_card))]
pub fn empty_card() -> Card
    ensures { result ≡ empty_card }
{
    Card {
        name: [0; 20],
        key: [0; 20],
        serial: [0; 20],
        size: 0,
    }
}

// Whether all of these octets are zeros. The loop looks at all of them: so the compiler takes many at
// once.
#[tactic(auto, using(crate::proofs::Cases::zero_next, crate::proofs::Cases::zero_end))]
fn each_zero(s: &[u8]) -> bool
    ensures { result ≡ all_zero s.now }
{
    let mut zero = true;
    for i in 0..s.len() {
        zero &= s[i] == 0;
    }
    zero
}

// Whether all of these octets are zeros, as a fill must be: by blocks of 128 octets, the last of which
// may begin in the one before it.
pub fn all_zero(s: &[u8]) -> bool
    ensures { result ≡ all_zero s.now }
{
    if s.len() < 128 {
        return each_zero(s);
    }
    let last = s.len() - 128;
    let mut i = 0;
    while i < last {
        let end = i + 128;
        if !each_zero(&s[i..end]) {
            return false;
        }
        i += 128;
    }
    each_zero(&s[last..])
}

// The same of a serial's fill, which is short: it ends at the first octet that is not zero.
fn fill_zero(s: &[u8]) -> bool
    ensures { result ≡ all_zero s.now }
{
    s.iter().all(|octet| *octet == 0)
}

// Whether a serial of this size stands in its field: at most 20 octets, by the serial rule, and zeros
// after it.
#[tactic(auto, using(crate::proofs::Cases::field_long, crate::proofs::Cases::field_short, crate::proofs::Cases::counted, crate::proofs::Cases::field_serial, crate::proofs::Cases::field_fill))]
pub fn field_fits(size: usize, field: &[u8]) -> bool
    ensures { result ≡ field_ok size field.now }
{
    if 20 < size {
        return false;
    }
    if field.len() < size {
        return content::serial_fits(field);
    }
    content::serial_fits(&field[..size]) && fill_zero(&field[size..])
}

// Whether the card's serial keeps the serial rule and its fill is zeros.
pub fn card_fits(card: Card) -> bool
    ensures { result ≡ card_ok card }
{
    let Card { serial, size, .. } = card;
    field_fits(size, &serial)
}

// Whether two cards are one: both hashes, the serial's field and its size.
#[tactic(auto, using(crate::proofs::Cases::cards_alike))]
pub fn same_card(a: Card, b: Card) -> bool
    ensures { result ≡ same_card a b }
{
    a == b
}
