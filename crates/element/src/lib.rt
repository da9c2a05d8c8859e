// Elements of X.690's DER: the tag octet, the length octets, the header read and written.
//
// No function here has a requirement. A refused header says the place that is refused, counted
// from the start of the part that was lent.
#![tactic(auto)]

mod heads; // the header read
mod lengths; // how many octets a length takes
mod tags; // the tag octet
mod writers; // the header written

pub use heads::{is_short, read_header};
pub use lengths::length_count;
pub use tags::{tag_fits, tag_of};
pub use writers::put_header;

// The three fields of a tag octet.
#[derive(Clone, Copy, Debug, PartialEq, Eq)]
pub struct Tag {
    pub class: u8,
    pub constructed: bool,
    pub number: u8,
}

// The header of an element with this tag: its content starts at start and is len octets long.
#[derive(Clone, Copy, Debug, PartialEq, Eq)]
pub struct Header {
    pub tag: u8,
    pub start: usize,
    pub len: usize,
}

// What is not in order: the place that is refused.
#[derive(Clone, Copy, Debug, PartialEq, Eq)]
pub struct Misfit {
    pub place: usize,
}

// A part of what was lent: the len octets from start.
#[derive(Clone, Copy, Debug, PartialEq, Eq)]
pub struct Span {
    pub start: usize,
    pub len: usize,
}

// Why no header was written.
#[derive(Clone, Copy, Debug, PartialEq, Eq)]
pub enum Unformed {
    // The buffer has no room for it.
    Short,
    // No element has such a tag.
    NoTag,
}
