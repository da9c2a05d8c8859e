// A number as a line, the number 0 with what goes with it, and octets handed over.
ghost use Rattle.std.specs.Prelude.{◌≤◌, length};
ghost use Rattle.octets.specs.Number.{octets_of};
ghost use Rattle.hexadecimal.specs.Hex.{hex_line};
ghost use Rattle.cache_line.specs.Reply.{numbered, accepted_reply};
ghost use Rattle.cache_line.specs.Wrote.{Wrote};

// Writes octets at the start of a buffer: how many, or 0 where there is no room for them.
pub(crate) fn hand(new: &[u8], out: &mut [u8]) -> usize
    ensures { Wrote out.old new.now result out.new }
{
    octets::put(out, 0, new).unwrap_or(0)
}

// Writes the line of a number: four digits.
pub(crate) fn say_number(number: u64, line: &mut [u8]) -> usize
    ensures { Wrote line.old (hex_line (numbered number)) result line.new }
{
    let mut reply = [0u8; 2];
    octets::put_number(&mut reply, 0, 2, number);
    hexadecimal::hex_line(&reply, line)
}

// Writes the line of the number 0 and of octets after it, no more than a place has.
#[tactic(auto, using(crate::proofs::SayCases::body_counted))]
pub(crate) fn say_body(body: &[u8], line: &mut [u8]) -> usize
    requires { length body.now ≤ 87 }
    ensures { Wrote line.old (hex_line (accepted_reply body.now)) result line.new }
{
    let mut reply = [0u8; 2 + cache_rules::WIDTH];
    octets::put(&mut reply, 2, body);
    let size = 2 + body.len();
    hexadecimal::hex_line(&reply[..size], line)
}

// Writes the line of the number 0 and a count in two digits.
pub(crate) fn say_count(count: usize, line: &mut [u8]) -> usize
    ensures { Wrote line.old (hex_line (accepted_reply (octets_of 1 count))) result line.new }
{
    let mut body = [0u8; 1];
    octets::put_number(&mut body, 0, 1, count as u64);
    say_body(&body, line)
}
