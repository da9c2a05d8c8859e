// The desk: reads a question and a response from standard input, and writes what the response says for
// the question, as a slip in hex and a line feed.
//
// Reading goes on to the end of the input, whatever its length. What is kept of it is in crate desk_intake,
// with the proof that the line is that of the whole input. A read that fails is not the end: it is told
// on standard error, and the line is that of an input without a question, refusal 1.
//
// No contract says which octets the operating system hands over, or what becomes of those that are
// written: that a read puts them at the start of the chunk, in order, and answers 0 only at the end of
// the input, is assumed.
#![tactic(auto)]

ghost use Rattle.std.specs.Prelude.{◌≤◌, length};
ghost use Rattle.desk_intake.specs.Room.{room_least};
ghost use Rattle.desk_intake.specs.Read.{Onward, WasRead};
ghost use Rattle.desk.specs.Input.{Says};

use desk_intake::Input;
use std::io;
use std::io::{Eprint, Read};

// Tells on standard error that a read failed, and in the system's words how. Where that cannot be
// written, nobody is left to be told.
fn tell_failure(rt: &impl Eprint, error: io::Error) {
    let _ = eprintln!(rt; "desk: standard input: {error}");
}

// Reads once more, and keeps what came after the octets that are kept.
fn read_more<R: Read>(rt: &impl Eprint, reader: &mut R, space: &mut [u8], done: usize) -> Input
    ensures { Onward space.old done space.new result }
{
    let mut chunk = [0u8; 4096];
    match reader.read(&mut chunk) {
        Ok(0) => Input::End(done),
        Ok(n) => {
            let next = desk_intake::keep(space, done, &chunk[..n]);
            Input::More(next)
        }
        Err(error) => {
            tell_failure(rt, error);
            Input::Failed
        }
    }
}

// Reads to the end. A proved loop has to end, so it counts its turns, up to a number that no run
// reaches.
fn read_all<R: Read>(rt: &impl Eprint, reader: &mut R, space: &mut [u8]) -> Input
    ensures { WasRead space.new result }
{
    let mut done = 0;
    for _ in 0..u64::MAX {
        match read_more(rt, reader, space, done) {
            Input::More(next) => done = next,
            Input::End(n) => return Input::End(n),
            Input::Failed => return Input::Failed,
        }
    }
    Input::Failed
}

// Writes the line of the input that was read, or of an empty one where reading failed: how many octets.
// In a space with room enough the line is that of the whole input, also where not all of it is kept.
#[tactic(auto, using(crate::proofs::Cases::says_end, crate::proofs::Cases::says_none))]
fn input_line(space: &[u8], input: Input, line: &mut [u8]) -> usize
    requires room_least_in_bounds { room_least ≤ length space.now }
    requires was_read { WasRead space.now input }
    ensures { Says space.now input line.old result line.new }
{
    match input {
        Input::End(n) => desk_line::line_for(&space[..n], line),
        Input::More(_) | Input::Failed => desk_line::line_for(&[], line),
    }
}

// Writes the line to standard output.
#[tactic(auto, using(crate::proofs::Cases::line_inside, crate::proofs::Cases::line_counted))]
fn say_input(rt: &impl Print, space: &[u8], input: Input) -> io::Result<()>
    requires room_least_in_bounds { room_least ≤ length space.now }
    requires was_read { WasRead space.now input }
{
    let mut line = [0u8; 175];
    let n = input_line(space, input, &mut line);
    rt.write_all(&line[..n])
}

fn main(rt: HostRuntime) -> io::Result<()> {
    let mut space = [0u8; desk_intake::ROOM];
    let input = read_all(&rt, &mut rt.stdin(), &mut space);
    say_input(&rt, &space, input)
}
