// Fields of a fixed width, as questions and slips have them, and what a writer answers.
//
// No function here has a requirement: a field that is not there is zeros.
#![tactic(auto)]

mod parts; // hashes, numbers and cards read from a part
mod room; // what a writer answers, before it writes

pub use parts::{card_in, hash_at, value_at};
pub use room::room_for;

// What a writer answers: how many octets it wrote, or why it wrote none.
#[derive(Clone, Copy)]
pub enum Output {
    Octets(usize),
    Refused(u8),
}
