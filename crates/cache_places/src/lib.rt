// The places of a whole buffer (document 02, C-11): whether they are a cache, where a card is held, which
// place may be taken, and how many are filled.
//
// A buffer is taken as 64 places of one width, its length divided by 64. No public function here has a
// requirement: a buffer of any length gets an answer.
#![tactic(auto)]

mod rooms; // whether a buffer is a cache
mod search; // a place, a card's place, one that may be taken; how many are filled

pub use rooms::room_fits;
pub use search::{count, free_at, held_at, place_at};
