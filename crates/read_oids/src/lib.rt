// The OIDs of a list of extensions, looked at where they stand: no list of them is kept, and nothing is
// copied.
//
// No public function here has a requirement. A place is counted from the start of the part that was lent.
#![tactic(auto)]

mod names; // the OID at the head of a list, and those of the first extensions

pub use names::{is_new, name_at};

// The OID of the extension at the head of a part: it starts at start and is len octets long; the
// extension takes next octets.
#[derive(Clone, Copy, Debug, PartialEq, Eq)]
pub struct Name {
    pub start: usize,
    pub len: usize,
    pub next: usize,
}
