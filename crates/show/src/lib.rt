// What is shown of a response: where its parts are, its signed part, its signature, and its entries one by
// one.
//
// No public function here has a requirement. Nothing is copied: a part that is shown is a part of the
// caller's own octets, and an entry is told by its place in them.
#![tactic(auto)]

mod entries; // the entries one by one
mod parts; // where the parts are, the signed part and the signature

pub use entries::entry_at;
pub use parts::{octets_at, parts_of, signature, signed_part};

// What stands at an ordinal among the entries.
#[derive(Clone, Copy, Debug, PartialEq, Eq)]
pub enum Entry {
    // The entry, header included: it starts at start and is len octets long.
    At {
        start: usize,
        len: usize,
    },
    // There are no more entries.
    End,
    // Why there are none at all; the place is the one that does not fit, with 3.
    Refused {
        number: u8,
        status: u8,
        place: Option<usize>,
    },
}
