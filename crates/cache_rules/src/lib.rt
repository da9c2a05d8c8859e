// The cache of a room (document 02, C-11): what a cache is, what filing a slip does to it, and what asking
// for a card gives. Definitions are in specs/, laws and theorems in proofs/, and there is no function here.
#![tactic(auto)]

use answer::{Card, Verdict};

// How many octets a place has, and how many places there are.
pub const WIDTH: usize = 87;

pub const PLACES: usize = 64;

// Why a filing is refused.
#[derive(Clone, Copy, Debug, PartialEq, Eq)]
pub enum Unfiled {
    // The buffer is no cache (19).
    NoCache,
    // The time or the tolerance is out of range (1).
    Clock,
    // The octets are no slip of kind 01 to 03 (17).
    Slip,
    // The slip's card has no place, and none is empty or stale (20).
    Full,
}

// What a filing answers: how many places are then not empty, or why it is refused.
pub type Filed = Result<usize, Unfiled>;

// What an ask answers: what the slip of the card says at that time, a refusal too, or nothing where no
// place has the card; and the card beside it, empty unless an answer is said.
#[derive(Clone, Copy)]
pub struct Told {
    pub asked: Option<Verdict>,
    pub card: Card,
}
