// What a walk over the entries of a response is: it keeps the lent response and its place in it, the place
// being the number of entries handed out. A place may be any number. Four types, definitions and the
// theorems about them; the code is in the crates above.
#![tactic(auto)]

use show::Entry;

// A walk over the entries of a lent response.
#[derive(Drop)]
pub struct Walk<'a> {
    pub response: &'a [u8],
    // How many entries were handed out.
    pub place: usize,
}

// What a step of a walk gives.
#[derive(Drop)]
pub struct Handed<'a> {
    // Where the entry is, that there are no more, or why there are none.
    pub says: Entry,
    // The entry's octets, header included: the caller's own octets; nothing where there is none.
    pub part: &'a [u8],
}

// A step by the response and the place, without its part.
#[derive(Drop)]
pub struct Advance {
    // As `says` of a `Handed`.
    pub says: Entry,
    // The place after the step.
    pub place: usize,
}

// A step as numbers, for a caller that holds no walk.
#[derive(Drop)]
pub struct Stepped {
    // As `says` of a `Handed`.
    pub says: Entry,
    // How many octets were handed out.
    pub size: usize,
    // The place after the step.
    pub place: usize,
}
