// The line of the program `room` (document 02, C-11), and the cache that follows it. The input is an
// operation in 1 octet, a time and a tolerance in 8 each, how many octets the paper has in 1, the paper,
// and all the rest is the cache. 00, alone, asks for a new cache; 01 files the paper, a slip; 02 asks for
// the paper, a card; 03, with no paper, lists the places. The line is hex: a number in four digits, 0 or a
// refusal's, or 256 for a card that is not held; after 0 the count, the slip, or a mark for each place. In
// a room of ROOM octets what is kept of an input is answered as the whole input (specs/, WholeLaws). What
// is answered to each operation is in specs/, RoomTheorem. No input or output of its own.
//
// No public function here has a requirement: a buffer that is too short is left as it was.
#![tactic(auto)]

mod answers; // the answer to an input
mod lists; // the marks of the places
mod parts; // the parts of an input
mod says; // a number, and what goes with it, as a line

pub use answers::answer_for;

// How many octets were written: those of the line, and those of the cache that follows it.
#[derive(Clone, Copy)]
pub struct Reply {
    pub line: usize,
    pub cache: usize,
}

// The longest header, 18 octets and a paper of 255, a cache, and one octet more (specs/, Input:
// `room_least`).
pub const ROOM: usize = 18 + 255 + 5_568 + 1;

// The longest line: four digits, two for each octet of the longest slip, and a line feed.
pub const LINE: usize = 4 + 2 * 87 + 1;

// The octets of a cache.
pub const CACHE: usize = 5_568;
