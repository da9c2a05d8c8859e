// Slips, read back.
//
// No public function here has a requirement: what breaks the slip rules is answered with 17.
#![tactic(auto)]

mod readers; // a slip as an answer

pub use readers::read_slip;
