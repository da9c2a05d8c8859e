// Slips, written into a lent buffer.
//
// No public function here has a requirement: what breaks the slip rules is answered with 17, a buffer that
// is too short with 18, and a refusal leaves the buffer as it was. `write_unjudged` does not ask the slip
// rules: it is for a caller that has proved that they are kept.
#![tactic(auto)]

mod puts; // the octets of an answer
mod writers; // an answer as a slip, by the slip rules or with none asked

pub use writers::{write_slip, write_unjudged};
