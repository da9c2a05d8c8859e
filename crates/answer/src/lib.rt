// What the desk is told: a card, and what a response says of it.
//
// An accepted answer is good, revoked or unknown, with its card and its times. A refusal is a number,
// with a status where the number is 4, a place where it is 3, and an empty card; it is never one of the
// three.
//
// No function here has a requirement.
#![tactic(auto)]

mod cards; // the card
mod verdicts; // the answer of a refusal

pub use cards::{all_zero, card_fits, empty_card, field_fits, same_card};
pub use verdicts::{refuse, refuse_at};

// Which reader's card: the issuer's two hashes and the serial's octets, filled up with zeros.
#[derive(Clone, Copy, PartialEq, Eq)]
pub struct Card {
    pub name: [u8; 20],
    pub key: [u8; 20],
    pub serial: [u8; 20],
    pub size: usize,
}

// What a response says of a card. A revocation may have a reason.
#[derive(Clone, Copy)]
pub enum Verdict {
    Good {
        this: u64,
        next: u64,
    },
    Revoked {
        this: u64,
        next: u64,
        at: u64,
        reason: Option<u8>,
    },
    Unknown {
        this: u64,
        next: u64,
    },
    Refused {
        number: u8,
        status: u8,
    },
}

// The verdict, with the card that it is about beside it, and with refusal 3 the place where the response does
// not fit: the octet that is objected to, counted from the start of the response.
#[derive(Clone, Copy)]
pub struct Answer {
    pub verdict: Verdict,
    pub card: Card,
    pub place: Option<usize>,
}
