// The basic response: where its parts are in the response.
ghost use Rattle.std.specs.Prelude.{◌+◌, ◌≤◌, ◌≡◌, length, drop};
ghost use Rattle.layout.proofs.Format.{basic_body, basic_response};
ghost use Rattle.layout.specs.Read.{inner_reading};
ghost use Rattle.read_response.specs.Parts.{judged_as};
ghost use Rattle.read_basic.specs.Views.{algorithm_on, tail_of};
ghost use Rattle.read_response.specs.Content.{content_of};
ghost use Rattle.read_response.specs.Placed.{front_at, parts_at, tailed};

use crate::{Parts, Span, Unread};
use element::Misfit;
use read_basic::{Inside, Tail};

// Where the parts of the signed part are in the response.
#[derive(Clone, Copy, Debug, PartialEq, Eq)]
pub struct Front {
    pub signed: Span,
    pub responder: Span,
    pub entries: Span,
    pub count: usize,
    pub extensions: Span,
}

// The parts of a signed part that starts at this place of the response: its responder id starts at start,
// its content ends at end, and inside has the places and sizes that were read.
fn place_front(at: usize, start: usize, end: usize, inside: Inside) -> Front
    requires { (start + inside.start + inside.len ≤ end) × (at + end ≤ 16384) }
    ensures { result ≡ front_at at start end inside.responder inside.start inside.len inside.count }
{
    let content = at + start;
    let entries = content + inside.start;
    let extensions = entries + inside.len;
    Front {
        signed: Span {
            start: at,
            len: end,
        },
        responder: Span {
            start: content,
            len: inside.responder,
        },
        entries: Span {
            start: entries,
            len: inside.len,
        },
        count: inside.count,
        extensions: Span {
            start: extensions,
            len: at + end - extensions,
        },
    }
}

// The parts of a basic response that ends at this place: those of the signed part, and those that follow it.
fn place_parts(front: Front, tail: Tail, last: usize) -> Parts
    requires { (front.signed.start + front.signed.len + tail.start + tail.len ≤ last) × (last ≤ 16384) }
    ensures { result ≡ parts_at front tail.algorithm tail.start tail.len last }
{
    let after = front.signed.start + front.signed.len;
    let signature = after + tail.start;
    let certificates = signature + tail.len;
    Parts {
        signed: front.signed,
        responder: front.responder,
        entries: front.entries,
        count: front.count,
        extensions: front.extensions,
        algorithm: Span {
            start: after,
            len: tail.algorithm,
        },
        signature: Span {
            start: signature,
            len: tail.len,
        },
        certificates: Span {
            start: certificates,
            len: last - certificates,
        },
    }
}

// The content of a basic response whose signed part has been read: what follows that.
#[tactic(auto, using(crate::proofs::BasicCases::tail_cases))]
fn after_signed(s: &[u8], front: Front) -> Result<Parts, Misfit>
    requires { (front.signed.len ≤ length s.now) × (front.signed.start + length s.now ≤ 16384) }
    ensures { result ≡ tailed front (length s.now) (tail_of (algorithm_on.dec (drop front.signed.len s.now))) }
{
    let end = front.signed.len;
    let after = front.signed.start + end;
    let tail = read_basic::algorithm_and_more(&s[end..]).map_err(|m| Misfit {
        place: after + m.place,
    })?;
    let last = front.signed.start + s.len();
    Ok(place_parts(front, tail, last))
}

// The content of a basic response, which starts at this place of the response.
#[tactic(auto, using(crate::proofs::BasicCases::body_cases))]
fn basic_body(s: &[u8], at: usize) -> Result<Parts, Misfit>
    requires { at + length s.now ≤ 16384 }
    ensures { result ≡ content_of at (basic_body.dec s.now) }
{
    let held = read_content::expect(s, 0x30).map_err(|m| Misfit {
        place: at + m.place,
    })?;
    let start = held.start;
    let end = start + held.len;
    let content = at + start;
    let inside = read_basic::signed_body(&s[start..end]).map_err(|m| Misfit {
        place: content + m.place,
    })?;
    let front = place_front(at, start + inside.from, end, inside);
    after_signed(s, front)
}

// The basic response that s is to be, which starts at this place of the response.
#[tactic(auto, using(crate::proofs::JudgeCases::basic_cases))]
pub(crate) fn judge_basic(s: &[u8], from: usize) -> Result<Parts, Unread>
    requires { from + length s.now ≤ 16384 }
    ensures { result ≡ judged_as (from + length s.now) (inner_reading from (basic_response.dec s.now)) }
{
    let held = read_content::expect(s, 0x30).map_err(|m| Misfit {
        place: from + m.place,
    })?;
    let end = held.start + held.len;
    let parts = basic_body(&s[held.start..end], from + held.start)?;
    if end == s.len() {
        Ok(parts)
    } else {
        Err(Unread::Unfit(Misfit { place: from + end }))
    }
}
