// The header of an element, read at the head of a lent part.
ghost use Rattle.std.specs.Prelude.{◌≡◌, ◌≤◌, ◌<◌, length, get_or};
ghost use Rattle.octets.specs.Number.{number_at};
ghost use Rattle.element.specs.Header.{inside_of, long_of, header_of, is_short};

use crate::{Header, Misfit, lengths, tags};

// The element ends inside the size octets that hold it.
#[tactic(auto, unfolding(crate::specs::Header::inside_of))]
fn inside(size: usize, tag: u8, start: usize, len: usize) -> Result<Header, Misfit>
    requires { start ≤ size }
    ensures { result ≡ inside_of size tag start len }
{
    if len <= size - start {
        Ok(Header { tag, start, len })
    } else {
        Err(Misfit { place: 0 })
    }
}

// The number of k octets after the first two, without a loop where there are one or two of them.
#[tactic(auto, using(crate::proofs::LengthCases::length_one, crate::proofs::LengthCases::length_two))]
fn length_in(s: &[u8], k: usize) -> Option<u64>
    ensures { result ≡ number_at s.now 2 k }
{
    match k {
        1 if 4 <= s.len() => Some(s[2] as u64),
        2 if 4 <= s.len() => Some(s[2] as u64 * 256 + s[3] as u64),
        _ => octets::number_at(s, 2, k),
    }
}

// A length of k more octets.
#[tactic(auto, using(crate::proofs::HeadCases::long_cases))]
fn long_header(s: &[u8], tag: u8, k: usize) -> Result<Header, Misfit>
    requires { k ≤ 8 }
    ensures { result ≡ long_of s.now tag k }
{
    let start = 2 + k;
    if s.len() < start {
        return Err(Misfit { place: s.len() });
    }
    match length_in(s, k) {
        Some(n) if lengths::is_shortest(k, n) => inside(s.len(), tag, start, n as usize),
        _ => Err(Misfit { place: 0 }),
    }
}

// A part of fewer than two octets holds no header.
#[tactic(auto, using(crate::proofs::HeadCases::read_cases))]
fn cut_header(s: &[u8]) -> Result<Header, Misfit>
    requires { length s.now < 2 }
    ensures { result ≡ header_of s.now }
{
    if s.len() == 0 || !tags::tag_fits(s[0]) {
        return Err(Misfit { place: 0 });
    }
    Err(Misfit { place: s.len() })
}

// The tag and the length at the head of s.
#[tactic(auto, using(crate::proofs::HeadCases::read_cases))]
pub fn read_header(s: &[u8]) -> Result<Header, Misfit>
    ensures { result ≡ header_of s.now }
{
    if s.len() < 2 {
        return cut_header(s);
    }
    let tag = s[0];
    if !tags::tag_fits(tag) {
        return Err(Misfit { place: 0 });
    }
    let first = s[1];
    if first < 128 {
        return inside(s.len(), tag, 2, first as usize);
    }
    if first == 128 || 136 < first {
        return Err(Misfit { place: 0 });
    }
    long_header(s, tag, (first - 128) as usize)
}

// Whether the head of s is a tag and a length of one octet, and the element ends inside s. Most are so,
// and a caller that asks this first needs no more than a few comparisons.
#[tactic(auto, unfolding(crate::specs::Header::is_short))]
pub fn is_short(s: &[u8]) -> bool
    ensures { result ≡ is_short s.now }
{
    2 <= s.len() && s[1] <= 127 && s[1] as usize <= s.len() - 2 && tags::tag_fits(s[0])
}
