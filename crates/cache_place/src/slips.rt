// A slip of kind 01 to 03, at the start of a place or alone: whether it may be filed, its card and its
// times.
ghost use Rattle.std.specs.Prelude.{◌≡◌, ◌≤◌, length, get_or};
ghost use Rattle.cache_rules.specs.Place.{slip_in, card_at, is_said, says_of};
ghost use Rattle.cache_place.specs.Times.{this_at, next_at, late_at};
ghost use Rattle.cache_place.specs.Said.{serial_fits, end_fits, rules_fit};

use freshness::Clock;

// The octets of the slip at the start of a place: as many as its kind has, or all where there are fewer.
#[tactic(auto, using(crate::proofs::Cases::slip_cases))]
pub fn slip_at<'a>(p: &'a [u8]) -> &'a [u8]
    ensures { result.now ≡ slip_in p.now }
{
    if p.is_empty() {
        return p;
    }
    let size = slip::size_of(p[0]);
    if p.len() < size {
        return p;
    }
    &p[..size]
}

// The octets of the card: none where the kind has no card.
#[tactic(auto, using(crate::proofs::Cases::card_cases))]
pub fn card_at<'a>(p: &'a [u8]) -> &'a [u8]
    ensures { result.now ≡ card_at p.now }
{
    if p.is_empty() {
        return p;
    }
    if !slip::has_card(p[0]) {
        return &p[..0];
    }
    if p.len() < 62 {
        return &p[1..];
    }
    &p[1..62]
}

// The octets of thisUpdate as a number.
#[tactic(auto, using(crate::proofs::Cases::this_is))]
pub fn this_at(p: &[u8]) -> u64
    ensures { result ≡ this_at p.now }
{
    fields::value_at(p, 62, 8)
}

// The octets of nextUpdate as a number.
#[tactic(auto, using(crate::proofs::Cases::next_is))]
pub fn next_at(p: &[u8]) -> u64
    ensures { result ≡ next_at p.now }
{
    fields::value_at(p, 70, 8)
}

// Whether the octets of nextUpdate, as a number, and the tolerance are before now.
#[tactic(auto, using(crate::proofs::Cases::late_not, crate::proofs::Cases::late_by))]
pub fn is_late(p: &[u8], clock: Clock) -> bool
    ensures { result ≡ late_at clock p.now }
{
    let next = next_at(p);
    next < clock.now && clock.tolerance < clock.now - next
}

// Whether the serial at its place keeps the serial rule, with zeros behind it.
fn serial_fits(t: &[u8]) -> bool
    requires { 78 ≤ length t.now }
    ensures { result ≡ serial_fits t.now }
{
    answer::field_fits(t[41] as usize, &t[42..62])
}

// Whether what a revoked slip has more, its time and its reason, keeps the slip rules.
#[tactic(auto, using(crate::proofs::SlipCases::end_cases))]
fn end_fits(t: &[u8]) -> bool
    requires { 87 ≤ length t.now }
    ensures { result ≡ end_fits t.now }
{
    let at = fields::value_at(t, 78, 8);
    let octet = t[86];
    slip::times_fit(0, at) && (octet == 255 || slip::reason_fits(Some(octet)))
}

// Whether a slip of kind 01 to 03 and of its length keeps the slip rules.
#[tactic(auto, using(crate::proofs::SlipCases::rule_cases))]
fn rules_fit(t: &[u8]) -> bool
    requires { (78 ≤ length t.now) × (get_or t.now 0 0 ≡ 2 → 87 ≤ length t.now) }
    ensures { result ≡ rules_fit t.now }
{
    serial_fits(t) && slip::times_fit(this_at(t), next_at(t)) && (t[0] != 2 || end_fits(t))
}

// Whether octets are a slip that may be filed: of kind 01 to 03, and within the slip rules.
#[tactic(auto, using(crate::proofs::SlipCases::said_cases))]
pub fn slip_fits(t: &[u8]) -> bool
    ensures { result ≡ is_said (says_of t.now) }
{
    if t.is_empty() {
        return false;
    }
    let kind = t[0];
    slip::has_card(kind) && t.len() == slip::size_of(kind) && rules_fit(t)
}
