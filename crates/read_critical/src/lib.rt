// The place of the first critical extension that is not understood, in a part that holds extensions.
//
// No public function here has a requirement: a part that is not the A1 of extensions has no such place.
// A place is counted from the start of the part that was lent. Nothing is copied.
#![tactic(auto)]

mod around; // the two elements around the list
mod list; // the list
mod one; // one extension

pub use around::strange_place;
