// The check: what a response says of one card, for one signer and verdict, at one time.
//
// The public function has no requirement: a question out of range is answered with refusal 1, and any
// octets are a response.
#![tactic(auto)]

mod cards; // one card, and the check
mod entries; // one entry

pub use cards::check;
