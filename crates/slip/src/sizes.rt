// The table of slips: how long a slip is.
ghost use Rattle.std.specs.Prelude.{◌≡◌, length};
ghost use Rattle.slip.specs.Table.{size_of};
ghost use Rattle.slip.specs.Slip.{slip_of};

use crate::kinds;
use answer::Answer;

// How many octets slips of this kind have.
#[tactic(auto, unfolding(crate::specs::Table::size_of, crate::specs::Table::body_size, crate::specs::Table::row_of, crate::specs::Table::row_in, crate::specs::Numbers::total))]
pub fn size_of(kind: u8) -> usize
    ensures { result ≡ size_of 20 kind }
{
    match kind {
        1 => 78,
        2 => 87,
        3 => 78,
        4 => 3,
        _ => 1,
    }
}

// How many octets the slip of an answer has.
#[tactic(auto, using(crate::proofs::KindCases::size_known))]
pub fn slip_size(answer: Answer) -> usize
    ensures { result ≡ length (slip_of answer) }
{
    let verdict = answer.verdict;
    let kind = kinds::kind_of(verdict);
    size_of(kind)
}
