// The octets of a time, read.
ghost use Rattle.std.specs.Prelude.{◌≡◌};
ghost use Rattle.calendar.specs.Time.{time_of};

use crate::{fitting, plain};

// The seconds since 1970-01-01 00:00:00 that 15 octets write, the last of them Z.
#[tactic(auto, using(crate::proofs::FitLaws::read_at, crate::proofs::FitLaws::read_none))]
pub fn read_time(s: &[u8]) -> Option<u64>
    ensures { result ≡ time_of s.now }
{
    if fitting::time_fits(s) {
        Some(plain::seconds_of(s))
    } else {
        None
    }
}
