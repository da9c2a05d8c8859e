// Which entries of a response are for a card, by their headers and the octets of their CertIDs.
//
// No public function here has a requirement. The search leaves off at the second entry for the card.
#![tactic(auto)]

mod entries; // the search

pub use entries::search;

// What was found: ordinals count from 0.
#[derive(Clone, Copy)]
pub enum Found {
    // No entry: how many entries there are.
    None(usize),
    // One entry: its ordinal, and its octets, header included.
    One {
        ordinal: usize,
        start: usize,
        len: usize,
    },
    // Two entries: the ordinals of the first two.
    Two {
        first: usize,
        second: usize,
    },
}

// What the search sees at a place: the size of an element, and whether it is an entry for the card.
#[derive(Clone, Copy, Debug, PartialEq, Eq)]
pub struct Seen {
    pub size: usize,
    pub here: bool,
}
