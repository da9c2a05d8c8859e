// The operations on requests and slips. An answer in a case is 89 octets: kind 1, card 61, thisUpdate
// 8, nextUpdate 8, revocationTime 8, reason 1 (FF if absent), number 1, status 1; what the kind does not
// have is 0.
use crate::say;
use answer::{Answer, Card, Verdict};
use std::io;

// Writes a request into a buffer, and what it holds then.
fn request_in(rt: &impl Print, card: Card, out: &mut [u8]) -> io::Result<()> {
    let output = request::write_request(card, out);
    say::say_output(rt, out, output)
}

// The request for a card, in a buffer whose size follows the card.
pub(crate) fn say_request(rt: &impl Print, body: &[u8]) -> io::Result<()> {
    let card = fields::card_in(body);
    let size = fields::value_at(body, 61, 1) as usize;
    let mut space = [0u8; 255];
    if size <= 255 {
        request_in(rt, card, &mut space[..size])?;
    }
    Ok(())
}

// A verdict from its octets in a case.
fn verdict_in(body: &[u8]) -> Verdict {
    let this = fields::value_at(body, 62, 8);
    let next = fields::value_at(body, 70, 8);
    match fields::value_at(body, 0, 1) {
        1 => Verdict::Good { this, next },
        2 => Verdict::Revoked {
            this,
            next,
            at: fields::value_at(body, 78, 8),
            reason: reason_in(body),
        },
        3 => Verdict::Unknown { this, next },
        _ => refusal_in(body),
    }
}

fn reason_in(body: &[u8]) -> Option<u8> {
    if body.len() < 89 || body[86] == 255 {
        return None;
    }
    Some(body[86])
}

fn refusal_in(body: &[u8]) -> Verdict {
    if body.len() < 89 {
        return Verdict::Refused {
            number: 0,
            status: 0,
        };
    }
    Verdict::Refused {
        number: body[87],
        status: body[88],
    }
}

// Writes a slip into a buffer, and what it holds then.
fn slip_in(rt: &impl Print, answer: Answer, out: &mut [u8]) -> io::Result<()> {
    let output = slip_write::write_slip(answer, out);
    say::say_output(rt, out, output)
}

// The slip of an answer, in a buffer whose size follows the answer.
pub(crate) fn say_written(rt: &impl Print, body: &[u8]) -> io::Result<()> {
    if body.len() < 90 {
        return say::say(rt, b"short\n");
    }
    let answer = Answer {
        verdict: verdict_in(body),
        card: fields::card_in(&body[1..]),
        place: None,
    };
    let size = body[89] as usize;
    let mut space = [0u8; 255];
    if size <= 255 {
        slip_in(rt, answer, &mut space[..size])?;
    }
    Ok(())
}

// A card as 61 octets.
fn say_card(rt: &impl Print, card: Card) -> io::Result<()> {
    say::say_hex(rt, &card.name)?;
    say::say_hex(rt, &card.key)?;
    say::say_octets(rt, card.size as u64, 1)?;
    say::say_hex(rt, &card.serial)
}

fn say_reason(rt: &impl Print, reason: Option<u8>) -> io::Result<()> {
    say::say_octets(rt, reason.unwrap_or(255) as u64, 1)
}

// An accepted answer.
fn say_answer(rt: &impl Print, kind: u64, card: Card, this: u64, next: u64) -> io::Result<()> {
    say::say_octets(rt, kind, 1)?;
    say_card(rt, card)?;
    say::say_octets(rt, this, 8)?;
    say::say_octets(rt, next, 8)
}

// An answer that is no refusal, in hex.
pub(crate) fn say_said(rt: &impl Print, card: Card, verdict: Verdict) -> io::Result<()> {
    match verdict {
        Verdict::Good { this, next } => {
            say_answer(rt, 1, card, this, next)?;
            say::say(rt, b"0000000000000000000000")
        }
        Verdict::Unknown { this, next } => {
            say_answer(rt, 3, card, this, next)?;
            say::say(rt, b"0000000000000000000000")
        }
        Verdict::Revoked {
            this,
            next,
            at,
            reason,
        } => {
            say_answer(rt, 2, card, this, next)?;
            say::say_octets(rt, at, 8)?;
            say_reason(rt, reason)?;
            say::say(rt, b"0000")
        }
        Verdict::Refused { .. } => Ok(()),
    }
}

// What a slip says, as an answer in hex.
pub(crate) fn say_read(rt: &impl Print, body: &[u8]) -> io::Result<()> {
    let answer = slip_read::read_slip(body);
    say_said(rt, answer.card, answer.verdict)?;
    match answer.verdict {
        Verdict::Refused { number, status } => say_refused(rt, number, status),
        Verdict::Good { .. } | Verdict::Unknown { .. } | Verdict::Revoked { .. } => {
            say::say(rt, b"\n")
        }
    }
}

// A refusal as an answer, or that the slip breaks the slip rules.
fn say_refused(rt: &impl Print, number: u8, status: u8) -> io::Result<()> {
    if number == 17 {
        return say::say(rt, b"r17\n");
    }
    say::say_octets(rt, 4, 1)?;
    let card = answer::empty_card();
    say_card(rt, card)?;
    say::say_octets(rt, 0, 8)?;
    say::say_octets(rt, 0, 8)?;
    say::say_octets(rt, 0, 8)?;
    say::say_octets(rt, 0, 1)?;
    say::say_octets(rt, number as u64, 1)?;
    say::say_octets(rt, status as u64, 1)?;
    say::say(rt, b"\n")
}
