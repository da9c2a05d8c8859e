// Up to sixty-four entries.
ghost use Rattle.std.specs.Prelude.{◌≡◌};
ghost use Rattle.codec.proofs.Many.{many};
ghost use Rattle.layout.proofs.Format.{single_response};
ghost use Rattle.read_entry.specs.Counts.{count_of};

use crate::singles;
use element::Misfit;

// How many entries a response has, to the end of s, no more than sixty-four; or the place that is wrong.
pub fn read_entries(s: &[u8]) -> Result<usize, Misfit>
    ensures { result ≡ count_of ((many 0 64 single_response).dec s.now) }
{
    let mut at: usize = 0;
    let mut count: usize = 0;
    while at < s.len() {
        if count == 64 {
            return Err(Misfit { place: at });
        }
        match singles::read_single(&s[at..]) {
            Err(misfit) => {
                let place = at + misfit.place;
                return Err(Misfit { place });
            }
            Ok(n) => {
                at += n;
                count += 1;
            }
        }
    }
    Ok(count)
}
