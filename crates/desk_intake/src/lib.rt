// What a program keeps of its input: the beginning of it that there is room for, however the input
// comes in chunks. In a room of ROOM octets that is the input itself, or a beginning that is longer than
// a question and the longest response, and the desk's answer to it is the answer to the whole input
// (specs/, SameLineLaws). No input or output of its own.
//
// No function here has a requirement: a place past the space is held to its end.
#![tactic(auto)]

mod keeping; // one chunk more

pub use keeping::keep;

// What came of reading: how many octets are kept in the space, and whether there may be more.
#[derive(Clone, Copy)]
pub enum Input {
    More(usize),
    End(usize),
    Failed,
}

// The 353 octets of a question, the longest response, and one octet more (specs/, Room: `room_least`).
pub const ROOM: usize = 353 + 16_384 + 1;
