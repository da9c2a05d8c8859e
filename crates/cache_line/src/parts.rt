// The parts of an input: the operation in the first octet, the time and the tolerance in eight each, how
// many octets the paper has in one, the paper, and all the rest is the cache.
ghost use Rattle.std.specs.Prelude.{◌≡◌};
ghost use Rattle.cache_line.specs.Input.{is_new, clock_in, begins_at};

use freshness::Clock;

// Whether an input is that of a new cache: the operation 00 alone.
#[tactic(auto, using(crate::proofs::PartCases::new_long, crate::proofs::PartCases::new_tested))]
pub(crate) fn is_new(input: &[u8]) -> bool
    ensures { result ≡ is_new input.now }
{
    input.len() == 1 && input[0] == 0
}

// Where the cache begins; 0 where the input ends before that.
#[tactic(auto, using(crate::proofs::PartCases::begins_cases))]
pub(crate) fn begins_at(input: &[u8]) -> usize
    ensures { result ≡ begins_at input.now }
{
    if input.len() < 18 {
        return 0;
    }
    let at = 18 + input[17] as usize;
    if input.len() < at {
        return 0;
    }
    at
}

// The time and the tolerance.
#[tactic(auto, using(crate::proofs::PartCases::clock_is))]
pub(crate) fn clock_in(input: &[u8]) -> Clock
    ensures { result ≡ clock_in input.now }
{
    let now = fields::value_at(input, 1, 8);
    let tolerance = fields::value_at(input, 9, 8);
    Clock { now, tolerance }
}
