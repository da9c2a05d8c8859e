// A certificate's status, judged at the head of a lent part: how many octets the element takes, or the
// place that is wrong.
//
// No function here has a requirement. A wrong place is counted from the start of the part that was
// lent.
#![tactic(auto)]

mod statuses; // good, revoked, unknown

pub use statuses::read_status;
