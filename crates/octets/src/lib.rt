// Octets: comparing lists of them, writing them into a lent buffer, and numbers with the high
// octet first.
//
// No function here has a requirement: where something does not fit, the answer is None, and the buffer
// is as it was.
#![tactic(auto)]

mod compare; // two lists compared
mod digits; // numbers read and written
mod place; // octets written at a place of a buffer
mod weights; // eight octets as one number

pub use compare::{same, same20};
pub use digits::{number_at, put_number};
pub use place::put;
