// Contents that stay octets: where they are.
ghost use Rattle.std.specs.Prelude.{◌≡◌};
ghost use Rattle.element.specs.Header.{header_of};
ghost use Rattle.layout.specs.Words.{between, anything};
ghost use Rattle.layout.proofs.ElementKinds.{string, oid};
ghost use Rattle.layout.proofs.Format.{signature_bits};
ghost use Rattle.read_content.specs.Spots.{expected, spot_of};

use crate::Spot;
use element::{Misfit, Span};

// The content of an element with this tag, by its header.
#[tactic(auto, using(crate::proofs::HeaderCases::header_cases))]
fn expect_any(s: &[u8], tag: u8) -> Spot
    ensures { result ≡ expected tag (header_of s.now) }
{
    let header = element::read_header(s)?;
    if header.tag == tag {
        return Ok(Span {
            start: header.start,
            len: header.len,
        });
    }
    Err(Misfit { place: 0 })
}

// The content of an element with this tag, which ends inside s. Most have a length of one octet, and
// take no more than a few comparisons.
#[tactic(auto, using(crate::proofs::HeaderCases::short_same))]
pub fn expect(s: &[u8], tag: u8) -> Spot
    ensures { result ≡ expected tag (header_of s.now) }
{
    if 2 <= s.len() && s[0] == tag && element::is_short(s) {
        return Ok(Span {
            start: 2,
            len: s[1] as usize,
        });
    }
    expect_any(s, tag)
}

// An OID.
#[tactic(auto, using(crate::proofs::ContentCases::oid_cases), unfolding(layout::proofs::ElementKinds::oid))]
pub fn read_oid(s: &[u8]) -> Spot
    ensures { result ≡ spot_of (oid.dec s.now) }
{
    let held = expect(s, 0x06)?;
    let end = held.start + held.len;
    if content::oid_fits(&s[held.start..end]) {
        return Ok(held);
    }
    Err(Misfit { place: 0 })
}

// An OCTET STRING of at least lo octets and at most hi.
#[tactic(auto, using(crate::proofs::ContentCases::string_cases))]
pub fn read_string(s: &[u8], lo: usize, hi: usize) -> Spot
    ensures { result ≡ spot_of ((string (between lo hi)).dec s.now) }
{
    let held = expect(s, 0x04)?;
    if held.len < lo || hi < held.len {
        return Err(Misfit { place: 0 });
    }
    Ok(held)
}

// An OCTET STRING of any octets.
#[tactic(auto, using(crate::proofs::ContentCases::any_octets))]
pub fn read_any_string(s: &[u8]) -> Spot
    ensures { result ≡ spot_of ((string anything).dec s.now) }
{
    expect(s, 0x04)
}

// A BIT STRING of whole octets, at least one: where they are, after the 00.
#[tactic(auto, using(crate::proofs::ContentCases::bits_cases), unfolding(layout::proofs::Format::signature_bits))]
pub fn read_bits(s: &[u8]) -> Spot
    ensures { result ≡ spot_of (signature_bits.dec s.now) }
{
    let held = expect(s, 0x03)?;
    if held.len < 2 || s[held.start] != 0 {
        return Err(Misfit { place: 0 });
    }
    Ok(Span {
        start: held.start + 1,
        len: held.len - 1,
    })
}
