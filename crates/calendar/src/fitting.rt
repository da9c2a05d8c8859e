// Whether octets are a time, without its seconds.
ghost use Rattle.std.specs.Prelude.{◌≡◌, ◌+◌, ◌<◌, length};
ghost use Rattle.calendar.specs.Time.{pair_of, clock_of, pair_at, time_of, is_time};

use crate::date;

// The number that two decimal digits write, or 100 where one of them is no digit. A digit's octet is
// 48 more than the digit, so the sum has 11 times 48 too much.
fn pair(a: u8, b: u8) -> u64
    ensures { result ≡ pair_of a b }
{
    if a < 48 || 57 < a || b < 48 || 57 < b {
        return 100;
    }
    a as u64 * 10 + b as u64 - 528
}

// The number that the two octets at a place write.
fn pair_at(s: &[u8], i: usize) -> u64
    requires { i + 1 < length s.now }
    ensures { result ≡ pair_at s.now i }
{
    pair(s[i], s[i + 1])
}

// Whether seven pairs of digits write a time, the first two of them the year.
fn clock_fits(c: u64, y: u64, mo: u64, d: u64, h: u64, mi: u64, se: u64) -> bool
    ensures { result ≡ is_time (clock_of c y mo d h mi se) }
{
    if 100 <= c || 100 <= y {
        return false;
    }
    let year = c * 100 + y;
    if year < 1970 || mo < 1 || 12 < mo || d < 1 {
        return false;
    }
    if 24 <= h || 60 <= mi || 60 <= se {
        return false;
    }
    date::day_fits(year, mo, d)
}

// Whether 15 octets, the last of them Z, write a time.
pub fn time_fits(s: &[u8]) -> bool
    ensures { result ≡ is_time (time_of s.now) }
{
    if s.len() != 15 || s[14] != b'Z' {
        return false;
    }
    clock_fits(
        pair_at(s, 0),
        pair_at(s, 2),
        pair_at(s, 4),
        pair_at(s, 6),
        pair_at(s, 8),
        pair_at(s, 10),
        pair_at(s, 12),
    )
}
