// The request for a card (source document 000, 2.1 and A.1), written into a lent buffer.
//
// The public function has no requirement: a card that does not fit and a buffer that is too short get
// a refusal, and the buffer stays as it was.
#![tactic(auto)]

mod parts; // the request's parts, each at its place
mod writers; // the request

pub use writers::write_request;
