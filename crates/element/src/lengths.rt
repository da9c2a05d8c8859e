// Length octets.
ghost use Rattle.std.specs.Prelude.{◌≡◌};
ghost use Rattle.element.specs.Length.{length_count, shortest};

// How many octets the length n takes after the first, where one octet is not enough.
#[tactic(auto, using(crate::proofs::LengthCases::zeros_few), unfolding(crate::specs::Length::length_count))]
pub fn length_count(n: u64) -> usize
    ensures { result ≡ length_count n }
{
    ((64 - u64::leading_zeros(n) + 7) / 8) as usize
}

// Whether k octets after the first are the form of the length n.
#[tactic(auto, unfolding(crate::specs::Length::shortest))]
pub(crate) fn is_shortest(k: usize, n: u64) -> bool
    ensures { result ≡ shortest k n }
{
    128 <= n && length_count(n) == k
}
