// The version of a signed part, where it is written: how many octets the element takes, or the place that
// is wrong.
//
// No function here has a requirement. A wrong place is counted from the start of the part that was
// lent.
#![tactic(auto)]

mod versions; // version [0]

pub use versions::read_version;
