// The operations that ask for parts of a response.
use crate::say;
use read_response::Unread;
use show::Entry;
use std::io;
use walk_rules::Stepped;

// Why a response is refused.
fn say_why(rt: &impl Print, s: &[u8]) -> io::Result<()> {
    let why = read_response::refuse(s);
    say::say_refusal(rt, why.number, why.status)
}

// The signed part: where it starts, and the size of the part that is shown.
pub(crate) fn say_signed(rt: &impl Print, s: &[u8]) -> io::Result<()> {
    match read_response::judge(s) {
        Ok(parts) => say::say_part(rt, parts.signed.start, show::signed_part(s).len()),
        Err(_) => say_why(rt, s),
    }
}

// The signature, likewise.
pub(crate) fn say_signature(rt: &impl Print, s: &[u8]) -> io::Result<()> {
    match read_response::judge(s) {
        Ok(parts) => say::say_part(rt, parts.signature.start, show::signature(s).len()),
        Err(_) => say_why(rt, s),
    }
}

// The responder id: where it starts and its size. Where a response does not fit, the place that is wrong
// stands behind the 3.
pub(crate) fn say_responder(rt: &impl Print, s: &[u8]) -> io::Result<()> {
    match read_response::judge(s) {
        Ok(parts) => say::say_part(rt, parts.responder.start, parts.responder.len),
        Err(Unread::Unfit(misfit)) => say::say_misfit(rt, misfit.place),
        Err(Unread::TooLong | Unread::Failed(_) | Unread::OtherType) => say_why(rt, s),
    }
}

// A walk over the entries of a response, from its start: so many steps, and then the step that is told.
// There are at most 64 entries, and the end stays, so after 64 steps every step is the same.
fn step_after(response: &[u8], count: usize) -> Stepped {
    let mut place = 0;
    for _ in 0..count.min(64) {
        place = walk::step_from(response, place).place;
    }
    walk::step_from(response, place)
}

// One step of the walk from a place: the first eight octets of the body, then the response. The walk goes
// there from its start, and the size that is said is that of the part which was handed out.
pub(crate) fn say_step(rt: &impl Print, body: &[u8]) -> io::Result<()> {
    let Some((place, response)) = body.split_at_checked(8) else {
        return say::say(rt, b"short\n");
    };
    let step = step_after(response, fields::value_at(place, 0, 8) as usize);
    match step.says {
        Entry::At { start, .. } => say::say_part(rt, start, step.size),
        Entry::End => say::say(rt, b"end\n"),
        Entry::Refused { number, status, .. } => say::say_refusal(rt, number, status),
    }
}
