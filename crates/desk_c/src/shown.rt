// A response's refusal, and its parts: where they are in the caller's own octets.
ghost use Rattle.std.specs.Prelude.{◌+◌, ◌≤◌, ◌≡◌, length};
ghost use Rattle.read_response.specs.Parts.{judged_of};
ghost use Rattle.read_response.specs.Refusals.{refusal_of};
ghost use Rattle.show.specs.Shown.{entry_of};
ghost use Rattle.desk_c.specs.Places.{signed_span, algorithm_in, signature_span, behind_header, held_in, certificates_in, entry_number, entry_span, place_over};

use element::Span;
use read_response::{Parts, Unread};
use show::Entry;

// The refusal of a response before any question is asked: 0 or 2 to 5, and the status that goes with 4.
pub fn desk_refusal(response: &[u8], status: &mut usize) -> usize
    ensures value { result ≡ (refusal_of (judged_of response.now)).number }
    ensures status_after { status.new ≡ (refusal_of (judged_of response.now)).status }
{
    let refusal = read_response::refuse(response);
    *status = refusal.status as usize;
    refusal.number as usize
}

// The same refusal, and the place that goes with 3: it is written with 3 alone.
pub fn desk_misfit(response: &[u8], place: &mut usize) -> usize
    ensures value { result ≡ (refusal_of (judged_of response.now)).number }
    ensures place_after { place.new ≡ place_over (refusal_of (judged_of response.now)).place place.old }
{
    let why = read_response::refuse(response);
    if let Some(p) = why.place {
        *place = p;
    }
    why.number as usize
}

// Tells where a part is, and the refusal of what the response is, 0 where there is none.
fn tell(judged: Result<Parts, Unread>, span: Span, from: &mut usize, len: &mut usize) -> usize
    ensures value { result ≡ (refusal_of judged).number }
    ensures from_after { from.new ≡ span.start }
    ensures len_after { len.new ≡ span.len }
{
    *from = span.start;
    *len = span.len;
    read_response::refusal_of(judged).number as usize
}

// The signed part, header included: 0 and where it is, or the refusal's number and an empty part.
pub fn desk_signed(response: &[u8], from: &mut usize, len: &mut usize) -> usize
    ensures value { result ≡ (refusal_of (judged_of response.now)).number }
    ensures from_after { from.new ≡ (signed_span (judged_of response.now)).start }
    ensures len_after { len.new ≡ (signed_span (judged_of response.now)).len }
{
    let judged = read_response::judge(response);
    let parts = show::parts_of(judged);
    tell(judged, parts.signed, from, len)
}

// The signature's algorithm identifier, header included, likewise.
pub fn desk_algorithm(response: &[u8], from: &mut usize, len: &mut usize) -> usize
    ensures value { result ≡ (refusal_of (judged_of response.now)).number }
    ensures from_after { from.new ≡ (algorithm_in (judged_of response.now)).start }
    ensures len_after { len.new ≡ (algorithm_in (judged_of response.now)).len }
{
    let judged = read_response::judge(response);
    let parts = show::parts_of(judged);
    tell(judged, parts.algorithm, from, len)
}

// The signature without its 00, likewise.
pub fn desk_signature(response: &[u8], from: &mut usize, len: &mut usize) -> usize
    ensures value { result ≡ (refusal_of (judged_of response.now)).number }
    ensures from_after { from.new ≡ (signature_span (judged_of response.now)).start }
    ensures len_after { len.new ≡ (signature_span (judged_of response.now)).len }
{
    let judged = read_response::judge(response);
    let parts = show::parts_of(judged);
    tell(judged, parts.signature, from, len)
}

// What stands behind the header at the head of s; all of s where there is no header.
#[tactic(auto, using(crate::proofs::ShownCases::behind_cases))]
fn behind<'a>(s: &'a [u8]) -> &'a [u8]
    ensures { result.now ≡ behind_header s.now }
{
    match element::read_header(s) {
        Ok(header) => &s[header.start..],
        Err(_) => s,
    }
}

// Of an element that holds one other, and of that one what it holds: where it is.
#[tactic(auto, using(crate::proofs::ShownCases::held_cases))]
fn held_in(s: &[u8], at: Span) -> Span
    requires { at.start + at.len ≤ length s.now }
    ensures { result ≡ held_in s.now at }
{
    let end = at.start + at.len;
    let list = behind(&s[at.start..end]);
    let held = behind(list);
    let len = held.len();
    if len == 0 {
        return Span { start: 0, len: 0 };
    }
    Span {
        start: end - len,
        len,
    }
}

// The certificates one after the other, without what is around them: 0 and where they are, an empty part
// where there are none; or the refusal's number and an empty part.
#[tactic(auto, using(crate::proofs::ShownCases::certificates_lent))]
pub fn desk_certificates(response: &[u8], from: &mut usize, len: &mut usize) -> usize
    ensures value { result ≡ (refusal_of (judged_of response.now)).number }
    ensures from_after { from.new ≡ (certificates_in response.now (judged_of response.now)).start }
    ensures len_after { len.new ≡ (certificates_in response.now (judged_of response.now)).len }
{
    let judged = read_response::judge(response);
    let parts = show::parts_of(judged);
    let span = held_in(response, parts.certificates);
    tell(judged, span, from, len)
}

// Where an entry is.
#[tactic(auto, unfolding(crate::specs::Places::entry_span))]
fn entry_span(entry: Entry) -> Span
    ensures { result ≡ entry_span entry }
{
    match entry {
        Entry::At { start, len } => Span { start, len },
        Entry::End | Entry::Refused { .. } => Span { start: 0, len: 0 },
    }
}

// The refusal of an entry, 0 where there is none.
#[tactic(auto, unfolding(crate::specs::Places::entry_number))]
fn entry_number(entry: Entry) -> u8
    ensures { result ≡ entry_number entry }
{
    match entry {
        Entry::At { .. } | Entry::End => 0,
        Entry::Refused { number, .. } => number,
    }
}

// The entry with this ordinal, counted from 0, header included: 0 and where it is, an empty part past
// the last one; or the refusal's number and an empty part.
pub fn desk_entry(response: &[u8], ordinal: usize, from: &mut usize, len: &mut usize) -> usize
    ensures value { result ≡ entry_number (entry_of response.now ordinal) }
    ensures from_after { from.new ≡ (entry_span (entry_of response.now ordinal)).start }
    ensures len_after { len.new ≡ (entry_span (entry_of response.now ordinal)).len }
{
    let entry = show::entry_at(response, ordinal);
    let span = entry_span(entry);
    *from = span.start;
    *len = span.len;
    entry_number(entry) as usize
}
