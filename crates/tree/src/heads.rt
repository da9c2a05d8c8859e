// Short headers, read by a few comparisons. Most elements have one.
ghost use Rattle.std.specs.Prelude.{◌≡◌};
ghost use Rattle.element.specs.Header.{header_of};
ghost use Rattle.tree.specs.Light.{Light};

use element::{Header, Misfit};

// The tag and the length at the head of s.
#[tactic(auto, using(crate::proofs::LightCases::short_cases))]
pub(crate) fn header_at(s: &[u8]) -> Result<Header, Misfit>
    ensures { result ≡ header_of s.now }
{
    if element::is_short(s) {
        let tag = s[0];
        let len = s[1] as usize;
        return Ok(Header { tag, start: 2, len });
    }
    element::read_header(s)
}

// How many octets the element at the head of s takes, if it is primitive and has a short header, and
// some depth is left.
#[tactic(auto, using(crate::proofs::LightCases::light_taken))]
pub(crate) fn light(s: &[u8], depth: usize) -> Option<usize>
    ensures { Light depth s.now result }
{
    if depth == 0 || s.len() < 2 || element::tag_of(s[0]).constructed || !element::is_short(s) {
        return None;
    }
    Some(2 + s[1] as usize)
}
