// Numbers with the high octet first.
ghost use Rattle.std.specs.Prelude.{◌≡◌, ◌+◌, ◌≤◌, length, take, drop};
ghost use Rattle.octets.specs.Number.{value_of, number_at, octets_of};
ghost use Rattle.octets.specs.Buffer.{put_in, put_answer};

use crate::weights;

// The number of the eight octets at a place, the high octet first.
fn eight(s: &[u8], at: usize) -> u64
    requires { at + 8 ≤ length s.now }
    ensures { result ≡ value_of (take 8 (drop at s.now)) }
{
    weights::weigh(
        s[at + 7],
        s[at + 6],
        s[at + 5],
        s[at + 4],
        s[at + 3],
        s[at + 2],
        s[at + 1],
        s[at],
    )
}

// The number of the width octets at a place, one by one: at most eight, and inside s.
#[tactic(auto, using(crate::specs::NumberLaws::number_wide, crate::specs::NumberLaws::number_outside))]
fn number_few(s: &[u8], at: usize, width: usize) -> Option<u64>
    ensures { result ≡ number_at s.now at width }
{
    if 8 < width || s.len() < at || s.len() - at < width {
        return None;
    }
    let mut n: u64 = 0;
    for x in &s[at..at + width] {
        n = n * 256 + *x as u64;
    }
    Some(n)
}

// The number of the width octets at a place: at most eight, and inside s.
#[tactic(auto, using(crate::specs::NumberLaws::number_outside, crate::proofs::Eights::eight_is))]
pub fn number_at(s: &[u8], at: usize, width: usize) -> Option<u64>
    ensures { result ≡ number_at s.now at width }
{
    if width != 8 {
        return number_few(s, at, width);
    }
    if s.len() < at || s.len() - at < 8 {
        return None;
    }
    Some(eight(s, at))
}

// Writes the width octets of n at a place, and gives the place after them, or writes nothing where there is no
// room for them.
#[tactic(auto, using(crate::specs::BufferLaws::put_answer_short, crate::specs::BufferLaws::put_in_short, crate::specs::NumberLaws::octets_length))]
pub fn put_number(out: &mut [u8], at: usize, width: usize, n: u64) -> Option<usize>
    ensures value { result ≡ put_answer (length out.old) at width }
    ensures out_after { out.new ≡ put_in out.old at (octets_of width n) }
{
    if out.len() < at || out.len() - at < width {
        return None;
    }
    let mut left = n;
    for i in (0..width).rev() {
        out[at + i] = (left % 256) as u8;
        left = left / 256;
    }
    Some(at + width)
}
