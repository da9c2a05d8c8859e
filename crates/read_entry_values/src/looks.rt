// The values of an entry, by the places of its parts: the CertID is stepped over by its header; a status
// has a length of one octet; a time takes 17 octets, 15 of them its content; nextUpdate takes 19.
ghost use Rattle.std.specs.Prelude.{◌≤◌, ◌≡◌, length, get_or, take, drop};
ghost use Rattle.calendar.specs.Plain.{plain_seconds};
ghost use Rattle.read_entry_values.specs.Looks.{inside_sequence, behind_sequence, why_in, standing_in, times_in, until_in, rest_size, view_of, seen_in};

use crate::{Standing, View};

// The octet at a place, 0 where there is none.
fn octet_at(s: &[u8], at: usize) -> u8
    ensures { result ≡ get_or s.now at 0 }
{
    s.get(at).copied().unwrap_or(0)
}

// What follows a place.
fn tail<'a>(s: &'a [u8], at: usize) -> &'a [u8]
    ensures { result.now ≡ drop at s.now }
{
    s.get(at..).unwrap_or(&[])
}

// The seconds of the time whose content is the 15 octets from a place on; 0 where they are not all there.
#[tactic(auto, using(crate::proofs::LookCases::seconds_few))]
fn seconds_at(s: &[u8], at: usize) -> u64
    ensures { result ≡ plain_seconds (take 15 (drop at s.now)) }
{
    match tail(s, at).get(..15) {
        Some(time) => calendar::seconds_of(time),
        None => 0,
    }
}

// What follows the header of the sequence at the head; nothing where there is none.
#[tactic(auto, using(read_content::specs::ExpectLaws::content_end), unfolding(crate::specs::Looks::inside_sequence))]
fn inside<'a>(s: &'a [u8]) -> &'a [u8]
    ensures { result.now ≡ inside_sequence s.now }
{
    match read_content::expect(s, 0x30) {
        Ok(held) => &s[held.start..],
        Err(_) => &s[..0],
    }
}

// What follows the sequence at the head; nothing where there is none.
#[tactic(auto, using(read_content::specs::ExpectLaws::content_end, read_content::specs::ExpectLaws::content_sum), unfolding(crate::specs::Looks::behind_sequence))]
fn behind<'a>(s: &'a [u8]) -> &'a [u8]
    ensures { result.now ≡ behind_sequence s.now }
{
    match read_content::expect(s, 0x30) {
        Ok(held) => &s[held.start + held.len..],
        Err(_) => &s[..0],
    }
}

// The reason in a revoked status: its code is the last octet, where there is more than the time.
#[tactic(auto, unfolding(crate::specs::Looks::why_in))]
fn why_in(status: &[u8]) -> Option<u8>
    ensures { result ≡ why_in status.now }
{
    if octet_at(status, 1) == 17 {
        return None;
    }
    Some(octet_at(status, 23))
}

// A status, by its tag.
#[tactic(auto, unfolding(crate::specs::Looks::standing_in))]
fn standing_in(status: &[u8]) -> Standing
    ensures { result ≡ standing_in status.now }
{
    match octet_at(status, 0) {
        0x80 => Standing::Good,
        0x82 => Standing::Unknown,
        _ => Standing::Revoked {
            at: seconds_at(status, 4),
            reason: why_in(status),
        },
    }
}

// What follows a status: the times.
#[tactic(auto, unfolding(crate::specs::Looks::times_in))]
fn times_in<'a>(status: &'a [u8]) -> &'a [u8]
    ensures { result.now ≡ times_in status.now }
{
    let size = octet_at(status, 1) as usize;
    tail(status, 2 + size)
}

// nextUpdate, by its tag behind thisUpdate.
#[tactic(auto, unfolding(crate::specs::Looks::until_in))]
fn until_in(times: &[u8]) -> Option<u64>
    ensures { result ≡ until_in times.now }
{
    if octet_at(times, 17) == 0xa0 {
        return Some(seconds_at(times, 21));
    }
    None
}

// How many octets follow the times.
#[tactic(auto, unfolding(crate::specs::Looks::rest_size))]
fn rest_size(times: &[u8], until: Option<u64>) -> usize
    ensures { result ≡ rest_size times.now until }
{
    match until {
        Some(_) => tail(times, 36).len(),
        None => tail(times, 17).len(),
    }
}

// The values of an entry of this size, with its status, by its times.
#[tactic(auto, using(crate::specs::SeenLaws::rest_short), unfolding(crate::specs::Looks::view_of))]
fn view_of(size: usize, standing: Standing, times: &[u8]) -> View
    requires { length times.now ≤ size }
    ensures { result ≡ view_of size standing times.now }
{
    let this = seconds_at(times, 2);
    let until = until_in(times);
    let len = rest_size(times, until);
    View {
        standing,
        this,
        until,
        from: size - len,
        len,
    }
}

// The values of an entry.
#[tactic(auto, using(crate::specs::SeenLaws::times_short), unfolding(crate::specs::Looks::seen_in))]
pub fn look_at(s: &[u8]) -> View
    ensures { result ≡ seen_in s.now }
{
    let status = behind(inside(s));
    let standing = standing_in(status);
    let times = times_in(status);
    view_of(s.len(), standing, times)
}
