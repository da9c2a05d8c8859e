// The entries of a response one by one, found from header to header.
ghost use Rattle.std.specs.Prelude.{◌+◌, ◌≤◌, ◌≡◌, length};
ghost use Rattle.show.specs.Shown.{refused_entry, entry_of};
ghost use Rattle.show.specs.Steps.{step_size, steps_size, spot_after};

use crate::Entry;
use read_response::{Parts, Unread};

// How many octets the element at the head of s takes; none where there is no header.
#[tactic(auto, using(crate::proofs::EntryCases::header_cases))]
fn step_size(s: &[u8]) -> usize
    ensures { result ≡ step_size s.now }
{
    match element::read_header(s) {
        Ok(header) => header.start + header.len,
        Err(_) => 0,
    }
}

// How many octets the first count elements of s take.
#[tactic(auto, using(crate::proofs::EntryCases::steps_cases))]
fn steps_size(s: &[u8], count: usize) -> usize
    ensures { result ≡ steps_size count s.now }
{
    let mut at: usize = 0;
    for _ in 0..count {
        at += step_size(&s[at..]);
    }
    at
}

// The element of s after the first count, where s starts at this place of the response.
#[tactic(auto, using(crate::proofs::EntryCases::after_cases))]
fn spot_after(s: &[u8], place: usize, count: usize) -> Entry
    requires { place + length s.now ≤ 16384 }
    ensures { result ≡ spot_after place count s.now }
{
    let at = steps_size(s, count);
    let len = step_size(&s[at..]);
    let start = place + at;
    Entry::At { start, len }
}

// A refusal instead of an entry.
fn refuse_entry(judged: Result<Parts, Unread>) -> Entry
    ensures { result ≡ refused_entry judged }
{
    let refusal = read_response::refusal_of(judged);
    Entry::Refused {
        number: refusal.number,
        status: refusal.status,
        place: refusal.place,
    }
}

// The entry with this ordinal, counted from 0.
#[tactic(auto, using(crate::proofs::EntryCases::entry_cases))]
pub fn entry_at(s: &[u8], place: usize) -> Entry
    ensures { result ≡ entry_of s.now place }
{
    let judged = read_response::judge(s);
    match judged {
        Ok(parts) => {
            let count = parts.count;
            if count <= place {
                return Entry::End;
            }
            let start = parts.entries.start;
            let end = start + parts.entries.len;
            spot_after(&s[start..end], start, place)
        }
        Err(_) => refuse_entry(judged),
    }
}
