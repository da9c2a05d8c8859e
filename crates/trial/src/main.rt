// Runs many cases in one go: reads them one after the other from standard input, each an octet of
// operation, four octets of length and a body, and writes a line for each. tests/README.md says what
// the cases and their lines are.
#![tactic(auto)]

mod papers; // requests and slips
mod parts; // parts of a response
mod runs; // runs over a cache
mod say; // what is written

use std::io;
use std::io::Read;

// The line of the desk program.
fn say_desk(rt: &impl Print, body: &[u8]) -> io::Result<()> {
    let mut line = [0u8; 175];
    let n = desk_line::line_for(body, &mut line);
    say::say(rt, &line[..n])
}

// The place that the answer carries; - where it carries none.
fn say_asked(rt: &impl Print, question: &[u8], response: &[u8]) -> io::Result<()> {
    match desk_case::ask(question, response).place {
        Some(place) => say::say_line(rt, place as u64),
        None => say::say(rt, b"-\n"),
    }
}

// The same for the desk program's input: a question, and then the response to the end.
fn say_place(rt: &impl Print, body: &[u8]) -> io::Result<()> {
    match body.split_at_checked(353) {
        Some((question, response)) => say_asked(rt, question, response),
        None => say_asked(rt, body, &[]),
    }
}

fn say_case(rt: &impl Print, operation: u8, body: &[u8]) -> io::Result<()> {
    match operation {
        1 => say_desk(rt, body),
        2 => parts::say_signed(rt, body),
        3 => parts::say_signature(rt, body),
        4 => parts::say_step(rt, body),
        5 => papers::say_request(rt, body),
        6 => papers::say_read(rt, body),
        7 => papers::say_written(rt, body),
        8 => runs::say_run(rt, body),
        9 => parts::say_responder(rt, body),
        10 => say_place(rt, body),
        _ => say::say(rt, b"-\n"),
    }
}

// Fills the buffer from what is read; whether there was enough. Where a read fails the run ends with its
// error.
fn read_full<R: Read>(reader: &mut R, out: &mut [u8]) -> io::Result<bool> {
    match reader.read_exact(out) {
        Ok(()) => Ok(true),
        Err(error) if error.kind() == io::ErrorKind::UnexpectedEof => Ok(false),
        Err(error) => Err(error),
    }
}

// Reads a body of n octets into the space that is lent, and writes its line; whether it was there.
fn one_body<R: Read>(
    rt: &impl Print,
    reader: &mut R,
    operation: u8,
    n: usize,
    space: &mut [u8],
) -> io::Result<bool> {
    if space.len() < n {
        return Ok(false);
    }
    if !read_full(reader, &mut space[..n])? {
        return Ok(false);
    }
    say_case(rt, operation, &space[..n])?;
    Ok(true)
}

// Reads one case and writes its line; whether there was one.
fn one_case<R: Read>(rt: &impl Print, reader: &mut R) -> io::Result<bool> {
    let mut head = [0u8; 5];
    if !read_full(reader, &mut head)? {
        return Ok(false);
    }
    let Some(size) = octets::number_at(&head, 1, 4) else {
        return Ok(false);
    };
    let mut space = [0u8; 131072];
    one_body(rt, reader, head[0], size as usize, &mut space)
}

// A proved loop has to end, so it counts its turns, up to a number that no run reaches.
fn main(rt: HostRuntime) -> io::Result<()> {
    let mut stdin = rt.stdin();
    for _ in 0..u64::MAX {
        if !one_case(&rt, &mut stdin)? {
            break;
        }
    }
    Ok(())
}
