// The seconds of a time that was judged before: nothing is tested again but what a sum needs.
//
// A digit's octet is 48 more than the digit, so ten times one octet and another is 528 more than the
// number of two digits. The 528 of each pair are taken off where a number is used.
ghost use Rattle.std.specs.Prelude.{◌≡◌, ◌+◌, ◌<◌, ◌≤◌, length};
ghost use Rattle.calendar.specs.Plain.{raw_pair, raw_at, plain_clock, plain_seconds};

use crate::date;

// Ten times an octet, and another.
fn raw_pair(a: u8, b: u8) -> u64
    ensures { (result ≡ raw_pair a b) × (result ≤ 2805) }
{
    a as u64 * 10 + b as u64
}

// Of the two octets at a place.
fn raw_at(s: &[u8], i: usize) -> u64
    requires { i + 1 < length s.now }
    ensures { (result ≡ raw_at s.now i) × (result ≤ 2805) }
{
    raw_pair(s[i], s[i + 1])
}

// The seconds since 1970 of a date and a time of day, by their pairs.
fn plain_clock(c: u64, y: u64, mo: u64, d: u64, h: u64, mi: u64, se: u64) -> u64
    requires { (c ≤ 2805) × (y ≤ 2805) × (d ≤ 2805) × (h ≤ 2805) × (mi ≤ 2805) × (se ≤ 2805) }
    ensures { result ≡ plain_clock c y mo d h mi se }
{
    let years = c * 100 + y;
    if years < 55298 || 63327 < years || mo < 529 || 540 < mo || d < 529 {
        return 0;
    }
    let seconds = h * 3600 + mi * 60 + se;
    if seconds < 1933008 {
        return 0;
    }
    let year = years - 53328;
    let month = mo - 528;
    let days = date::before_year(year) + date::before_month(year, month) + (d - 529);
    days * 86400 + (seconds - 1933008)
}

// The seconds since 1970 that 15 octets write which are known to be a time. Other octets get a number
// too, and it says nothing.
pub fn seconds_of(s: &[u8]) -> u64
    ensures { result ≡ plain_seconds s.now }
{
    if s.len() != 15 {
        return 0;
    }
    plain_clock(
        raw_at(s, 0),
        raw_at(s, 2),
        raw_at(s, 4),
        raw_at(s, 6),
        raw_at(s, 8),
        raw_at(s, 10),
        raw_at(s, 12),
    )
}
