// A place that fits.
ghost use Rattle.std.specs.Prelude.{◌≡◌, ◌≤◌, length, drop};
ghost use Rattle.answer.specs.Card.{all_zero};
ghost use Rattle.cache_rules.specs.Place.{place_ok};

use crate::slips;

// Whether octets are all zeros: the first is zero, and each of the others is the one before it. So eight are
// compared at a time.
#[tactic(auto, using(crate::proofs::ZeroCases::zero_cases))]
fn zeros(s: &[u8]) -> bool
    ensures { result ≡ all_zero s.now }
{
    if s.is_empty() {
        return true;
    }
    let last = s.len() - 1;
    s[0] == 0 && octets::same(&s[1..], &s[..last])
}

// Whether all octets of a place from the end of its slip on are zeros: nine of them, or none, as a rule.
#[tactic(auto, using(crate::proofs::PlaceCases::rest_cases))]
fn rest_zero(p: &[u8], end: usize) -> bool
    requires { end ≤ length p.now }
    ensures { result ≡ all_zero (drop end p.now) }
{
    if p.len() == end {
        return true;
    }
    if p.len() - end != 9 {
        return zeros(&p[end..]);
    }
    fields::value_at(p, end, 8) == 0 && p[end + 8] == 0
}

// Whether a place is empty, all zeros, or a slip of kind 01 to 03 with zeros after it.
#[tactic(auto, using(crate::proofs::PlaceCases::place_cases))]
pub fn place_fits(p: &[u8]) -> bool
    ensures { result ≡ place_ok p.now }
{
    if p.is_empty() {
        return true;
    }
    if p[0] == 0 {
        return zeros(p);
    }
    let slip = slips::slip_at(p);
    slips::slip_fits(slip) && rest_zero(p, slip.len())
}
