// The layout's elements of one octet and of none, read at the head of a lent part: the octet, or only
// how far the element goes. Each reader reads one header, and copies nothing.
//
// No function here has a requirement. A wrong place is counted from the start of the part that was
// lent; a content that does not fit is wrong at its element's own place, 0.
#![tactic(auto)]

mod singles; // contents of one octet, and of none

pub use singles::{read_code, read_good, read_reason_code, read_true, read_unknown, read_v1};

// The element of one octet at the head of a part.
#[derive(Clone, Copy, Debug, PartialEq, Eq)]
pub struct Code {
    // The octet.
    pub value: u8,
    // The place after the element.
    pub next: usize,
}
