// The rules of the check: the question, the order of refusals, when a response is accepted, and what is
// answered then, with what is proved of all this.
//
// Definitions and laws of readings and answers, and the question's type; there is no function here. The
// code that answers by these rules is in the crates above.
#![tactic(auto)]

use answer::Card;

// The question, but for the signer's Name, which is lent beside it. Verdict, role and marks are the
// caller's facts.
#[derive(Clone, Copy)]
pub struct Question {
    // The card that is asked about.
    pub card: Card,
    // The time now, in seconds since 1970.
    pub now: u64,
    // How many seconds past its nextUpdate an answer still counts.
    pub tolerance: u64,
    // The signature: 0 not tried, 1 valid, 2 invalid.
    pub verdict: u8,
    // The signer: 1 the issuing CA, 2 its delegate, 3 trusted locally.
    pub role: u8,
    // A delegate's marks: bit 0 issued directly by that CA, bit 1 has the OCSPSigning usage, bit 2
    // certificate valid now.
    pub marks: u8,
    // The hash of the signer's key.
    pub signer: [u8; 20],
}
