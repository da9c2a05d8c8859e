// The desk's case: from the octets of a question and of a response to the answer, and to its slip.
//
// No public function here has a requirement: a question that breaks its form or its ranges is answered with
// refusal 1, and a buffer that is too short is left as it was.
#![tactic(auto)]

mod questions; // the question's octets, and the answer
mod writes; // the slip of the answer

pub use questions::ask;
pub use writes::slip_for;
