// The operation on a cache: a run of filings and asks over one cache. A step is its kind (1 file, 2 ask),
// now 8, tolerance 8, a size and so many octets: a slip, or a card.
ghost use Rattle.std.specs.Prelude.{◌≤◌, ◌<◌, IfSome, length};

use crate::{papers, say};
use answer::{Card, Verdict};
use cache_rules::Filed;
use freshness::Clock;
use std::io;

fn say_number(rt: &impl Print, number: u64) -> io::Result<()> {
    say::say(rt, b"r")?;
    say::say_number(rt, number)?;
    say::say(rt, b" ")
}

fn say_filed(rt: &impl Print, filed: Filed) -> io::Result<()> {
    match filed {
        Ok(n) => {
            say::say(rt, b"c")?;
            say::say_octets(rt, n as u64, 1)?;
            say::say(rt, b" ")
        }
        Err(unfiled) => say_number(rt, cache_file::number_of(unfiled) as u64),
    }
}

// What a slip said, or a refusal.
fn say_verdict(rt: &impl Print, card: Card, verdict: Verdict) -> io::Result<()> {
    match verdict {
        Verdict::Refused { number, .. } => say_number(rt, number as u64),
        Verdict::Good { .. } | Verdict::Revoked { .. } | Verdict::Unknown { .. } => {
            say::say(rt, b"s")?;
            papers::say_said(rt, card, verdict)?;
            say::say(rt, b" ")
        }
    }
}

fn say_asked(rt: &impl Print, card: Card, asked: Option<Verdict>) -> io::Result<()> {
    match asked {
        Some(verdict) => say_verdict(rt, card, verdict),
        None => say::say(rt, b"n "),
    }
}

// Where the step at a place ends, where it is whole.
fn step_end(steps: &[u8], at: usize) -> Option<usize>
    ensures { IfSome result (λ end. (at < end) × (end ≤ length steps.now)) }
{
    let step = steps.get(at..)?;
    let size = fields::value_at(step, 17, 1) as usize;
    if step.len() < 18 || step.len() - 18 < size {
        return None;
    }
    Some(at + 18 + size)
}

fn clock_in(s: &[u8]) -> Clock {
    let now = fields::value_at(s, 1, 8);
    let tolerance = fields::value_at(s, 9, 8);
    Clock { now, tolerance }
}

fn file_step(rt: &impl Print, cache: &mut [u8], s: &[u8]) -> io::Result<()> {
    if let Some(slip) = s.get(18..) {
        say_filed(rt, cache_file::file(cache, slip, clock_in(s)))?;
    }
    Ok(())
}

fn ask_step(rt: &impl Print, cache: &[u8], s: &[u8]) -> io::Result<()> {
    if let Some(card) = s.get(18..) {
        let told = cache_ask::ask(cache, fields::card_in(card), clock_in(s));
        say_asked(rt, told.card, told.asked)?;
    }
    Ok(())
}

// Does the step that s is, and says its result; whether it was one.
fn do_step(rt: &impl Print, cache: &mut [u8], s: &[u8]) -> io::Result<bool> {
    match s {
        [1, ..] => file_step(rt, cache, s)?,
        [2, ..] if s.len() == 79 => ask_step(rt, cache, s)?,
        _ => return Ok(false),
    }
    Ok(true)
}

// Does the steps one after the other, as far as they are whole.
fn do_steps(rt: &impl Print, cache: &mut [u8], steps: &[u8]) -> io::Result<()> {
    let mut at = 0;
    while let Some(end) = step_end(steps, at) {
        if !do_step(rt, cache, &steps[at..end])? {
            break;
        }
        at = end;
    }
    Ok(())
}

// Does a run over a cache, and says what it holds then.
fn run_in(rt: &impl Print, cache: &mut [u8], steps: &[u8]) -> io::Result<()> {
    do_steps(rt, cache, steps)?;
    say::say_hex(rt, cache)?;
    say::say(rt, b"\n")
}

// The same over a copy of the cache, in a space that is lent.
fn run_on(rt: &impl Print, space: &mut [u8], cache: &[u8], steps: &[u8]) -> io::Result<()> {
    if space.len() < cache.len() {
        return Ok(());
    }
    let held = &mut space[..cache.len()];
    held.copy_from_slice(cache);
    run_in(rt, held, steps)
}

// Does the run over the cache that a body begins with.
pub(crate) fn say_run(rt: &impl Print, body: &[u8]) -> io::Result<()> {
    if body.len() < 4 {
        return say::say(rt, b"-\n");
    }
    let size = fields::value_at(body, 0, 4) as usize;
    if body.len() - 4 < size {
        return say::say(rt, b"-\n");
    }
    let end = 4 + size;
    let mut space = [0u8; 131072];
    run_on(rt, &mut space, &body[4..end], &body[end..])
}
