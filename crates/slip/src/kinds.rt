// The table of slips: which kind, and whether it has a card.
ghost use Rattle.std.specs.Prelude.{◌≡◌};
ghost use Rattle.answer.specs.Verdict.{kind_of};
ghost use Rattle.slip.specs.Table.{row_of};

use answer::Verdict;

// The kind of a verdict.
pub(crate) fn kind_of(verdict: Verdict) -> u8
    ensures { result ≡ kind_of verdict }
{
    match verdict {
        Verdict::Good { .. } => 1,
        Verdict::Revoked { .. } => 2,
        Verdict::Unknown { .. } => 3,
        Verdict::Refused { .. } => 4,
    }
}

// Whether slips of this kind have a card.
#[tactic(auto, unfolding(crate::specs::Table::row_of, crate::specs::Table::row_in))]
pub fn has_card(kind: u8) -> bool
    ensures { result ≡ (row_of kind).carded }
{
    kind == 1 || kind == 2 || kind == 3
}
