// One extension of a response or of an entry: a 30 with an OID, maybe TRUE, and an OCTET STRING. Its OID
// is none of those of the extensions before it.
//
// No public function here has a requirement. A wrong place is counted from the start of the part that
// was lent; a repeated OID is wrong at its own tag. Nothing is copied: the OIDs before an extension are
// looked at again where they stand.
#![tactic(auto)]

mod body; // what one extension holds
mod whole; // the 30 around it

pub use whole::read_extension;
