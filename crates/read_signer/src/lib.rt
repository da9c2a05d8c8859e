// Who signed a response, as it says itself: the responder id, and the certificates that come with the
// signature; each judged at the head of a lent part.
//
// No public function here has a requirement. A wrong place is counted from the start of the part that
// was lent.
#![tactic(auto)]

mod certificates; // up to 8 certificates
mod responders; // a Name, or a key's hash

pub use certificates::read_certificates;
pub use responders::read_responder;
