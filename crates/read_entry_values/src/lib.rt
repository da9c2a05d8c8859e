// The values of an entry that was judged before: its status, its times, and where its extensions are.
// Nothing is tested again: the values are looked up at the places where the layout has them.
//
// No public function here has a requirement: octets that are no entry get values too, and they say
// nothing. Nothing is copied.
#![tactic(auto)]

mod looks; // the values of an entry

pub use looks::look_at;

// What an entry says of its certificate.
#[derive(Clone, Copy, Debug, PartialEq, Eq)]
pub enum Standing {
    Good,
    // Since this time, in seconds since 1970, and for this reason, where one is given.
    Revoked { at: u64, reason: Option<u8> },
    Unknown,
}

// The values of an entry.
#[derive(Clone, Copy, Debug, PartialEq, Eq)]
pub struct View {
    pub standing: Standing,
    // thisUpdate, in seconds since 1970.
    pub this: u64,
    // nextUpdate, in seconds since 1970, where there is one.
    pub until: Option<u64>,
    // Where its extensions start, header included, and how many octets they take, to the entry's end:
    // none where they are absent.
    pub from: usize,
    pub len: usize,
}
