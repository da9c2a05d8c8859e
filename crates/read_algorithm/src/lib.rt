// An algorithm identifier, judged at the head of a lent part: how many octets the element takes, or the
// place that is wrong. The one that nearly every CertID has is told by its eleven octets.
//
// No function here has a requirement. A wrong place is counted from the start of the part that was
// lent.
#![tactic(auto)]

mod algorithms; // algorithm identifiers

pub use algorithms::read_algorithm;
