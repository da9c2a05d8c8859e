// The contents of two primitive elements: an OID and a serial.
//
// No function here has a requirement.
#![tactic(auto)]

mod oid; // the content of an OID
mod serial; // the content of a serial

pub use oid::oid_fits;
pub use serial::serial_fits;
