// A response judged as a whole (refusals 2 to 9): once, whatever card is asked about.
//
// No public function here has a requirement: any question, Name and octets are answered.
#![tactic(auto)]

mod signs; // who signed
mod whole; // the response as a whole

pub use whole::open;
