// How an entry ends: maybe nextUpdate, then maybe extensions. A signed part ends with maybe extensions
// too. What is lent is judged to its end.
//
// No public function here has a requirement. A wrong place is counted from the start of the part that
// was lent. Nothing is copied.
#![tactic(auto)]

mod ends; // maybe nextUpdate, maybe extensions
mod nexts; // nextUpdate

pub use ends::{extensions_maybe, next_and_more};
