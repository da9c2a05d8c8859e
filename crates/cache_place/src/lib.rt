// One place of the room's cache, and the slip in it (document 02, C-11): whether it fits, its card and its
// times.
//
// No public function here has a requirement: any octets, of any number, get an answer.
#![tactic(auto)]

mod slips; // a slip that may be filed, its card and its times
mod spots; // a place that fits

pub use slips::{card_at, is_late, next_at, slip_at, slip_fits, this_at};
pub use spots::place_fits;
