// A CertID, judged at the head of a lent part: how many octets the element takes, or the place that is
// wrong.
//
// No function here has a requirement. A wrong place is counted from the start of the part that was
// lent.
#![tactic(auto)]

mod certs; // CertIDs

pub use certs::read_cert;
