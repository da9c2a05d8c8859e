// The slip: what an answer is as octets, by a table of kinds, and the rules that it keeps.
//
// No function here has a requirement. Slips are written in crate `slip_write` and read in crate `slip_read`.
#![tactic(auto)]

mod kinds; // the table: which kind, and whether it has a card
mod rules; // the slip rules
mod sizes; // the table: how long a slip is

pub use kinds::has_card;
pub use rules::{reason_fits, slip_fits, times_fit};
pub use sizes::{size_of, slip_size};
