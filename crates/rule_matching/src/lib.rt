// Whether the CertID of an entry is for a card: its algorithm, both hashes and the serial, never the
// serial alone.
//
// DER has one form, so the octets of a CertID's content are compared with those that the card's own
// fields have. No public function has a requirement.
#![tactic(auto)]

mod cards; // a CertID's octets compared with a card's

pub use cards::{is_for, serial_size};
