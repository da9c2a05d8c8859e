// A response judged: whether any octets at all fit document 01's layout, where each part is, and which
// refusal it gives before any question is asked.
//
// No public function here has a requirement. A response is gone over once; nothing is copied.
#![tactic(auto)]

ghost use Rattle.std.specs.Prelude.{◌≡◌};
ghost use Rattle.read_response.specs.declared.Unread.TheVariants.{Unfit};

mod basics; // the basic response
mod refusals; // the refusal
mod whole; // the response as a whole

use element::Misfit;
pub use element::Span;
pub use refusals::{refusal_of, refuse};
pub use whole::judge;

// The parts of a basic response.
#[derive(Clone, Copy, Debug, PartialEq, Eq)]
pub struct Parts {
    // The signed part, header included.
    pub signed: Span,
    // The responder id, header included.
    pub responder: Span,
    // The entries, one after the other, without the header around them.
    pub entries: Span,
    // How many entries there are.
    pub count: usize,
    // The response's extensions, header included; nothing where they are absent.
    pub extensions: Span,
    // The signature's algorithm identifier, header included.
    pub algorithm: Span,
    // The signature, without its leading 00.
    pub signature: Span,
    // The certificates, header included; nothing where they are absent.
    pub certificates: Span,
}

// Why a response is no basic response, before any question is asked.
#[derive(Clone, Copy, Debug, PartialEq, Eq)]
pub enum Unread {
    // Longer than 16,384 octets (2).
    TooLong,
    // Not of the layout, with the place (3).
    Unfit(Misfit),
    // An error response, with its status (4).
    Failed(u8),
    // A response of another type (5).
    OtherType,
}

// What stands at a wrong place does not fit the layout.
impl From<Misfit> for Unread {
    ghost from_gives = { λ m u. u ≡ Unfit m };

    fn from(misfit: Misfit) -> Unread {
        Unread::Unfit(misfit)
    }
}

// What is refused before any question is asked.
#[derive(Clone, Copy, Debug, PartialEq, Eq)]
pub struct Refusal {
    // Document 01's number, 2 to 5; 0 where there is no refusal.
    pub number: u8,
    // The response status, with 4; else 0.
    pub status: u8,
    // The place that does not fit, with 3; else none.
    pub place: Option<usize>,
}
