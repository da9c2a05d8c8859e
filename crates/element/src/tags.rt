// The tag octet, split by shifts and masks.
ghost use Rattle.std.specs.Prelude.{◌≡◌};
ghost use Rattle.element.specs.Tag.{tag_of, tag_ok};

use crate::Tag;

// The class, the constructed bit and the number of a tag octet.
#[tactic(auto, using(crate::proofs::TagCases::low_bit, crate::proofs::TagCases::low_bits))]
pub fn tag_of(t: u8) -> Tag
    ensures { result ≡ tag_of t }
{
    Tag {
        class: t >> 6,
        constructed: (t >> 5) & 1 == 1,
        number: t & 31,
    }
}

// Whether an element may have this tag: not number 31, and not universal number 0.
#[tactic(auto, unfolding(crate::specs::Tag::tag_ok))]
pub fn tag_fits(t: u8) -> bool
    ensures { result ≡ tag_ok t }
{
    let tag = tag_of(t);
    tag.number != 31 && (tag.number != 0 || tag.class != 0)
}
