// The walk over the entries of a response: it keeps the lent response and its place in it, the place
// being the number of entries handed out. A place may be any number.
//
// No public function here has a requirement. `start` makes a walk, `next` makes a step of a lent walk, and
// `step_from` does both at a place. At the end, and with a refusal, a step hands out nothing and the place
// stays.
#![tactic(auto)]

mod walks; // a walk made and stepped

pub use walks::{next, start, step_from};
