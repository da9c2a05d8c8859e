// The two pieces of a basic response, each judged to its end: the signed part's content, and what follows
// the signed part.
//
// No public function here has a requirement. A place is counted from the start of the piece that was
// lent. Nothing is copied.
#![tactic(auto)]

mod signed; // the signed part's content
mod tails; // what follows the signed part

pub use signed::signed_body;
pub use tails::algorithm_and_more;

// Where the parts of the signed part's content are.
#[derive(Clone, Copy, Debug, PartialEq, Eq)]
pub struct Inside {
    // Where the responder id starts, which is after the version.
    pub from: usize,
    // How many octets it takes.
    pub responder: usize,
    // Where the entries start, counted from the responder id's start.
    pub start: usize,
    // How many octets they have.
    pub len: usize,
    // How many they are.
    pub count: usize,
}

// Where the signature is, counted from the algorithm's start.
#[derive(Clone, Copy, Debug, PartialEq, Eq)]
pub struct Tail {
    // How many octets the algorithm takes.
    pub algorithm: usize,
    // Where the signature starts.
    pub start: usize,
    // How many octets it has.
    pub len: usize,
}
