// How an answer for a whole is made of the answers for its parts, for every reader of the layout: an
// element that fills its holder, an element around its content, a part after a part, and a part that
// is told by its first octet. It reads no element itself.
//
// No function here has a requirement. A place is held to the end of its part.
#![tactic(auto)]

mod judged; // an answer made of answers

pub use judged::{after, closed, filled, starts_with};
