// The answer to an input: its line, and the cache that follows it.
ghost use Rattle.std.specs.Prelude.{◌≡◌, length};
ghost use Rattle.octets.specs.Buffer.{put_in};
ghost use Rattle.hexadecimal.specs.Hex.{hex_line};
ghost use Rattle.cache_rules.specs.Cache.{filed_of};
ghost use Rattle.cache_ask.specs.Found.{ask_found};
ghost use Rattle.cache_line.specs.Reply.{numbered, new_cache, filed_reply, filed_cache, found_reply, list_reply};
ghost use Rattle.cache_line.specs.Reply.{reply_with, cache_with, reply_of, cache_of, replied_to};
ghost use Rattle.cache_line.specs.Wrote.{Wrote, copy_after};

use crate::{CACHE, Reply, lists, parts, says};
use cache_ask::Sought;
use cache_rules::{Filed, Unfiled};
use freshness::Clock;

// Answers with an empty cache.
fn make_new(line: &mut [u8], cache: &mut [u8]) -> Reply
    ensures wrote { Wrote line.old (hex_line (numbered 0)) result.line line.new }
    ensures wrote_2 { Wrote cache.old new_cache result.cache cache.new }
{
    let zeros = [0u8; CACHE];
    Reply {
        line: says::say_number(0, line),
        cache: says::hand(&zeros, cache),
    }
}

// Files a slip in a copy of a cache, which stays as it was where the octets are not as many as a cache has.
#[tactic(auto, using(crate::proofs::Cases::copy_cases))]
fn file_copy(s: &[u8], slip: &[u8], clock: Clock, copy: &mut [u8]) -> Filed
    requires { length copy.old ≡ 5568 }
    ensures value { result ≡ filed_of clock s.now slip.now }
    ensures copy_after { copy.new ≡ copy_after clock s.now slip.now copy.old }
{
    if s.len() != CACHE {
        return Err(Unfiled::NoCache);
    }
    octets::put(copy, 0, s);
    cache_file::file(copy, slip, clock)
}

// Answers what was filed: the count, and the cache as it is then; or a refusal's number.
fn tell_filed(filed: Filed, copy: &[u8], line: &mut [u8], cache: &mut [u8]) -> Reply
    ensures wrote { Wrote line.old (hex_line (filed_reply filed)) result.line line.new }
    ensures wrote_2 { Wrote cache.old (filed_cache filed copy.now) result.cache cache.new }
{
    match filed {
        Ok(count) => Reply {
            line: says::say_count(count, line),
            cache: says::hand(copy, cache),
        },
        Err(unfiled) => Reply {
            line: says::say_number(cache_file::number_of(unfiled) as u64, line),
            cache: 0,
        },
    }
}

// Files the paper in the cache.
fn answer_file(s: &[u8], slip: &[u8], clock: Clock, line: &mut [u8], cache: &mut [u8]) -> Reply
    ensures wrote { Wrote line.old (hex_line (reply_with 1 clock slip.now s.now)) result.line line.new }
    ensures wrote_2 { Wrote cache.old (cache_with 1 clock slip.now s.now) result.cache cache.new }
{
    let mut copy = [0u8; CACHE];
    let filed = file_copy(s, slip, clock, &mut copy);
    tell_filed(filed, &copy, line, cache)
}

// Asks the cache for the card that the paper is: the slip of its place, or a number.
#[tactic(auto, using(crate::proofs::AskCases::slip_short))]
fn answer_ask(s: &[u8], card: &[u8], clock: Clock, line: &mut [u8]) -> usize
    ensures { Wrote line.old (hex_line (found_reply s.now (ask_found clock card.now s.now))) result
        line.new }
{
    match cache_ask::find(s, card, clock) {
        Sought::At(i) => {
            let p = cache_places::place_at(s, i);
            let slip = cache_place::slip_at(p);
            says::say_body(slip, line)
        }
        Sought::NotHeld => says::say_number(256, line),
        Sought::Refused(number) => says::say_number(number as u64, line),
    }
}

// Lists the places: their marks, or a number.
fn answer_list(s: &[u8], paper: &[u8], clock: Clock, line: &mut [u8]) -> usize
    ensures { Wrote line.old (hex_line (list_reply clock paper.now s.now)) result line.new }
{
    if !cache_places::room_fits(s) {
        return says::say_number(19, line);
    }
    if !freshness::clock_fits(clock) {
        return says::say_number(1, line);
    }
    if paper.len() != 0 {
        return says::say_number(1, line);
    }
    let marks = lists::marks_of(s, clock);
    says::say_body(&marks, line)
}

// Answers an operation that changes no cache; 1 for one that there is not.
fn answer_same(operation: u8, s: &[u8], paper: &[u8], clock: Clock, line: &mut [u8]) -> usize
    requires { operation ≡ 1 → ⊥ }
    ensures { Wrote line.old (hex_line (reply_with operation clock paper.now s.now)) result line.new }
{
    match operation {
        2 => answer_ask(s, paper, clock, line),
        3 => answer_list(s, paper, clock, line),
        _ => says::say_number(1, line),
    }
}

// Answers an operation with its paper and the cache.
fn answer_with(
    operation: u8,
    s: &[u8],
    paper: &[u8],
    clock: Clock,
    line: &mut [u8],
    cache: &mut [u8],
) -> Reply
    ensures wrote { Wrote line.old (hex_line (reply_with operation clock paper.now s.now)) result.line line.new }
    ensures wrote_2 { Wrote cache.old (cache_with operation clock paper.now s.now) result.cache cache.new }
{
    if operation == 1 {
        return answer_file(s, paper, clock, line, cache);
    }
    Reply {
        line: answer_same(operation, s, paper, clock, line),
        cache: 0,
    }
}

// Writes the answer to an input, line and cache.
#[tactic(auto, using(crate::proofs::InputCases::inside_cases))]
fn reply_for(input: &[u8], line: &mut [u8], cache: &mut [u8]) -> Reply
    ensures wrote { Wrote line.old (hex_line (reply_of input.now)) result.line line.new }
    ensures wrote_2 { Wrote cache.old (cache_of input.now) result.cache cache.new }
{
    if parts::is_new(input) {
        return make_new(line, cache);
    }
    let at = parts::begins_at(input);
    if at == 0 {
        return Reply {
            line: says::say_number(1, line),
            cache: 0,
        };
    }
    let clock = parts::clock_in(input);
    answer_with(input[0], &input[at..], &input[18..at], clock, line, cache)
}

// Writes the line of an input at the start of a buffer, and the cache that follows it at the start of
// another: how many octets of each. Where there is no room for one of them, it is 0, and its buffer is as
// it was.
#[tactic(auto, using(crate::proofs::InputCases::wrote_cases))]
pub fn answer_for(input: &[u8], line: &mut [u8], cache: &mut [u8]) -> Reply
    ensures value { result ≡ replied_to (length line.old) (length cache.old) input.now }
    ensures line_after { line.new ≡ put_in line.old 0 (hex_line (reply_of input.now)) }
    ensures cache_after { cache.new ≡ put_in cache.old 0 (cache_of input.now) }
{
    reply_for(input, line, cache)
}
