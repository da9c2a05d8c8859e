// A step of a walk, by the response and the place.
ghost use Rattle.std.specs.Prelude.{◌≡◌};
ghost use Rattle.walk_rules.specs.Step.{part_in, walk_step};

use read_response::Span;
use show::Entry;
use walk_rules::Advance;

// What a step from this place says, and the place after it: one more where there is an entry.
#[tactic(auto, using(crate::proofs::StepCases::few), unfolding(walk_rules::specs::Step::walk_step, walk_rules::specs::Step::place_next, walk_rules::specs::Step::place_after))]
pub fn step_at(s: &[u8], place: usize) -> Advance
    ensures { result ≡ walk_step s.now place }
{
    let says = show::entry_at(s, place);
    match says {
        Entry::At { .. } => {
            let later = place + 1;
            Advance { says, place: later }
        }
        Entry::End => Advance { says, place },
        Entry::Refused { .. } => Advance { says, place },
    }
}

// The octets of the entry that is said to be there, as far as s has them: the caller's own octets;
// nothing where no entry is said to be.
#[tactic(auto, unfolding(walk_rules::specs::Step::part_in))]
pub fn part_in<'a>(s: &'a [u8], says: Entry) -> &'a [u8]
    ensures { result.now ≡ part_in s.now says }
{
    match says {
        Entry::At { start, len } => show::octets_at(s, Span { start, len }),
        Entry::End => &s[..0],
        Entry::Refused { .. } => &s[..0],
    }
}
