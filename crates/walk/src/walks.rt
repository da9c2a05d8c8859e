// A walk made, and stepped.
ghost use Rattle.std.specs.Prelude.{◌≡◌};
ghost use Rattle.walk_rules.specs.Step.{stepped_of};
ghost use Rattle.walk_rules.specs.Walked.{start_of, say_of, hand_of, moved_of};

use walk_rules::{Handed, Stepped, Walk};

// A walk at the first entry.
pub fn start<'a>(response: &'a [u8]) -> Walk<'a>
    ensures { result ≡ start_of response.entry }
{
    Walk { response, place: 0 }
}

// A step of a lent walk: what it says, the octets that it hands out, and the walk moves. The response is
// judged once.
#[tactic(auto, unfolding(walk_rules::specs::Step::walk_step, walk_rules::specs::Step::part_of))]
pub fn next<'s, 'a>(w: &'s mut Walk<'a>) -> Handed<'a>
    ensures { (result.says ≡ say_of w.old) × (result.part.now ≡ hand_of w.old) × (w.new ≡ moved_of w.old) }
{
    let step = walk_steps::step_at(w.response, w.place);
    let part = walk_steps::part_in(w.response, step.says);
    w.place = step.place;
    Handed {
        says: step.says,
        part,
    }
}

// A walk made, put at a place, and stepped, as numbers: for a caller that holds no walk.
#[tactic(auto, unfolding(walk_rules::specs::Step::stepped_of))]
pub fn step_from(response: &[u8], place: usize) -> Stepped
    ensures { result ≡ stepped_of response.now place }
{
    let mut walk = start(response);
    walk.place = place;
    let handed = next(&mut walk);
    Stepped {
        says: handed.says,
        size: handed.part.len(),
        place: walk.place,
    }
}
