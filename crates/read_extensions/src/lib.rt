// The extensions of a response and of an entry: 1 to 16 in an A1, no OID twice.
//
// No public function here has a requirement. A wrong place is counted from the start of the part that
// was lent; a repeated OID is wrong at the tag of the second one.
#![tactic(auto)]

mod list; // the list, and what is around it

pub use list::{read_extensions, read_list};
