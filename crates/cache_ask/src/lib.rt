// Asking the room's cache for a card (document 02, C-11): where its slip stands, and what it says at a time.
//
// No public function here has a requirement: what can not be answered gets its number.
#![tactic(auto)]

mod asking; // what is told of a card
mod finding; // where a card's slip stands

pub use asking::ask;
pub use finding::find;

// What is found of a card: the position of the place whose slip counts, that no place has it, or a
// refusal's number.
#[derive(Clone, Copy)]
pub enum Sought {
    At(usize),
    NotHeld,
    Refused(u8),
}
