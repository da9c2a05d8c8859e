// Where the content of an element is, at the head of a lent part: of any element by its tag, and of the
// layout's OIDs, octet strings and bit strings. Each reader reads one header, and copies nothing.
//
// No function here has a requirement. A wrong place is counted from the start of the part that was
// lent; a content that does not fit is wrong at its element's own place, 0.
#![tactic(auto)]

mod spots; // contents that stay octets

use element::{Misfit, Span};
pub use spots::{expect, read_any_string, read_bits, read_oid, read_string};

// Where the content of the element at the head of a part is, or the place that is wrong.
pub type Spot = Result<Span, Misfit>;
