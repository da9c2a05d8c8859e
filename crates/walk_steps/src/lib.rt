// A step of a walk, by the response and the place: what it says with the place after it, and the octets
// that it hands out.
//
// No public function here has a requirement: a place may be any number, the response any octets, and what
// is said any answer. `step_at` judges the response; `part_in` does not, and takes what was said.
#![tactic(auto)]

mod places; // both, by what is said of the place

pub use places::{part_in, step_at};
