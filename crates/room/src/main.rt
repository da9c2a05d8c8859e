// The room: reads an operation, its paper and a cache from standard input, and writes a line of hex; behind
// it, for a new cache and an accepted filing, the 5,568 octets of the cache as it is then. Crate cache_line
// has the form of both.
//
// Reading goes on to the end of the input, whatever its length. What is kept of it is answered as the whole
// input would be (cache_line: WholeLaws). A read that fails is not the end: it is told on standard error,
// and the line is that of an empty input, refusal 1.
//
// No contract says which octets the operating system hands over, or what becomes of those that are
// written: that a read puts them at the start of the chunk, in order, and answers 0 only at the end of
// the input, is assumed.
//
// The example: a list at the time 150 of a cache whose first four places are a good card from 100 to 200,
// empty, a revoked one from 100 to 149, and an unknown one from 151.
#![tactic(auto)]

ghost use Rattle.std.specs.Prelude.{◌≤◌, length};
ghost use Rattle.desk_intake.specs.Read.{Onward, WasRead};
ghost use Rattle.cache_line.specs.Input.{cache_room_least};
ghost use Rattle.cache_line.specs.SizeLaws.{line_most, cache_most};
ghost use Rattle.room.specs.Answers.{Answers, Inside};

use cache_line::{CACHE, LINE, ROOM, Reply};
use desk_intake::Input;
use std::io;
use std::io::{Eprint, Read};

// Tells on standard error that a read failed, and in the system's words how. Where that cannot be
// written, nobody is left to be told.
fn tell_failure(rt: &impl Eprint, error: io::Error) {
    let _ = eprintln!(rt; "room: standard input: {error}");
}

// Reads once more, and keeps what came after the octets that are kept.
fn read_more<R: Read>(rt: &impl Eprint, reader: &mut R, space: &mut [u8], done: usize) -> Input
    ensures { Onward space.old done space.new result }
{
    let mut chunk = [0u8; 4096];
    match reader.read(&mut chunk) {
        Ok(0) => Input::End(done),
        Ok(n) => {
            let next = desk_intake::keep(space, done, &chunk[..n]);
            Input::More(next)
        }
        Err(error) => {
            tell_failure(rt, error);
            Input::Failed
        }
    }
}

// Reads to the end. A proved loop has to end, so it counts its turns, up to a number that no run
// reaches.
fn read_all<R: Read>(rt: &impl Eprint, reader: &mut R, space: &mut [u8]) -> Input
    ensures { WasRead space.new result }
{
    let mut done = 0;
    for _ in 0..u64::MAX {
        match read_more(rt, reader, space, done) {
            Input::More(next) => done = next,
            Input::End(n) => return Input::End(n),
            Input::Failed => return Input::Failed,
        }
    }
    Input::Failed
}

// Answers the input that was read, or an empty one where reading failed. In a space with room enough, and
// buffers with room for every answer, the answer is that to the whole input, and all of it is there.
#[tactic(auto, using(crate::proofs::Cases::answers_end, crate::proofs::Cases::answers_none, crate::proofs::Cases::inside))]
fn answer_input(space: &[u8], input: Input, line: &mut [u8], cache: &mut [u8]) -> Reply
    requires cache_room_least_in_bounds { cache_room_least ≤ length space.now }
    requires was_read { WasRead space.now input }
    requires line_most_in_bounds { line_most ≤ length line.old }
    requires cache_most_in_bounds { cache_most ≤ length cache.old }
    ensures answers { Answers space.now input result line.new cache.new }
    ensures inside { Inside result line.new cache.new }
{
    match input {
        Input::End(n) => cache_line::answer_for(&space[..n], line, cache),
        Input::More(_) | Input::Failed => cache_line::answer_for(&[], line, cache),
    }
}

// Writes the line and the cache behind it to standard output.
fn say_input(rt: &impl Print, space: &[u8], input: Input) -> io::Result<()>
    requires cache_room_least_in_bounds { cache_room_least ≤ length space.now }
    requires was_read { WasRead space.now input }
{
    let mut line = [0u8; LINE];
    let mut cache = [0u8; CACHE];
    let reply = answer_input(space, input, &mut line, &mut cache);
    rt.write_all(&line[..reply.line])?;
    rt.write_all(&cache[..reply.cache])
}

fn main(rt: HostRuntime) -> io::Result<()> {
    let mut space = [0u8; ROOM];
    let input = read_all(&rt, &mut rt.stdin(), &mut space);
    say_input(&rt, &space, input)
}
