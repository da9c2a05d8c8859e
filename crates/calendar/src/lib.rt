// Times: GeneralizedTime of 15 octets, YYYYMMDDHHMMSSZ, read as seconds since 1970.
//
// No public function requires anything. Of octets that are no such time `read_time` gives None; `time_fits` says
// only whether they are one; `seconds_of` is for octets of which that is known.
// Only `date` knows the months, and it has no list of them: their days come by division.
#![tactic(auto)]

mod date; // the days of months and years
mod fitting; // whether the octets are a time
mod plain; // the seconds of octets that are known to be a time
mod reading; // the octets read

pub use fitting::time_fits;
pub use plain::seconds_of;
pub use reading::read_time;

// The last second of year 9999.
pub const LAST_SECOND: u64 = 253402300799;
