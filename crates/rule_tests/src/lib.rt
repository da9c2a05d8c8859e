// Tests of the check that look at one thing each: the question's ranges (refusal 1), and critical extensions
// that are not understood, of a response (refusal 9) and of an entry (refusal 12).
//
// No public function here has a requirement: any question and Name are judged, and any octets are looked at
// as extensions.
#![tactic(auto)]

mod lists; // the OIDs that are understood, and whether another is critical
mod questions; // whether a question is in range

pub use lists::{strange_in_entry, strange_in_response};
pub use questions::question_fits;
