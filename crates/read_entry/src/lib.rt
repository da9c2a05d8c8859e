// An entry of a response, at the head of a lent part: how many octets it takes, or the place that is
// wrong; and up to sixty-four entries, counted.
//
// No public function here has a requirement. A wrong place is counted from the start of the part that
// was lent. Nothing is copied.
#![tactic(auto)]

mod entries; // up to sixty-four entries
mod singles; // one entry

pub use entries::read_entries;
pub use singles::read_single;
