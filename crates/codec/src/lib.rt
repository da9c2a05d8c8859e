// Lawful codecs: how values are read from octets and written as octets, piece by piece, each piece
// with the laws that make reading and writing one. Definitions and laws; the two types are what
// readers answer, and the code is in the crates above.

#![tactic(auto)]

use element::Misfit;

// One element at the head of a part: how many octets it takes, or the place that is wrong.
pub type Step = Result<usize, Misfit>;

// A part as a whole: that it is read, or the place that is wrong.
pub type Fit = Result<(), Misfit>;
