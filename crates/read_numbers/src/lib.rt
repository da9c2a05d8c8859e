// The layout's numbers, judged at the head of a lent part: a serial, and a time. Each reader reads one
// header, and copies nothing.
//
// No function here has a requirement. A wrong place is counted from the start of the part that was
// lent; a content that does not fit is wrong at its element's own place, 0.
#![tactic(auto)]

mod numbers; // contents that stand for numbers

pub use numbers::{judge_time, read_serial};
