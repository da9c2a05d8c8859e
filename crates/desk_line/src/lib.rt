// The program's line: from its input, a question and then a response, to the slip of the answer as hex.
// No input or output of its own.
//
// No public function here has a requirement: a buffer that is too short is left as it was.
#![tactic(auto)]

mod lines; // the input cut, and the line

pub use lines::line_for;
