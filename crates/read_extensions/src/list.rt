// The list of extensions, and the two elements around it.
ghost use Rattle.std.specs.Prelude.{◌≡◌};
ghost use Rattle.codec.specs.Views.{step_of, fit_of};
ghost use Rattle.layout.proofs.Format.{extension_list, extensions};
ghost use Rattle.read_extensions.specs.Pieces.{sequenced, held};

use codec::{Fit, Step};
use element::Misfit;

// Extensions up to the end of s: 1 to 16, no OID twice.
#[tactic(auto, using(crate::proofs::ListCases::list_start, crate::proofs::ListCases::list_none, crate::proofs::ListCases::list_some, crate::proofs::ListCases::list_over, crate::proofs::ListCases::list_less))]
pub fn read_list(s: &[u8]) -> Fit
    ensures { result ≡ fit_of (extension_list.dec s.now) }
{
    let mut count: usize = 0;
    let mut at: usize = 0;
    while at < s.len() {
        if count == 16 {
            return Err(Misfit { place: at });
        }
        match read_extension::read_extension(s, count, &s[at..]) {
            Err(misfit) => {
                let place = at + misfit.place;
                return Err(Misfit { place });
            }
            Ok(n) => {
                at += n;
                count += 1;
            }
        }
    }
    if count == 0 {
        return Err(Misfit { place: at });
    }
    Ok(())
}

// The 30 around the list, at the head of s.
#[tactic(auto, using(read_sequence::specs::CaseLaws::tagged_wrong, read_sequence::specs::CaseLaws::tagged_end, read_sequence::specs::CaseLaws::tagged_sum, read_sequence::specs::CaseLaws::tagged_closed), unfolding(crate::specs::Pieces::sequenced))]
fn read_sequence(s: &[u8]) -> Step
    ensures { result ≡ step_of (sequenced.dec s.now) }
{
    let list = read_content::expect(s, 0x30)?;
    let end = list.start + list.len;
    read_sequence::closed(list.start, end, read_list(&s[list.start..end]))
}

// The 30, which fills s.
#[tactic(auto, using(crate::proofs::ListCases::held_filled))]
fn read_held(s: &[u8]) -> Fit
    ensures { result ≡ fit_of (held.dec s.now) }
{
    read_sequence::filled(read_sequence(s), s.len())
}

// The extensions at the head of s: an A1 that holds the 30 alone.
#[tactic(auto, using(read_sequence::specs::CaseLaws::tagged_wrong, read_sequence::specs::CaseLaws::tagged_end, read_sequence::specs::CaseLaws::tagged_sum, read_sequence::specs::CaseLaws::tagged_closed), unfolding(layout::proofs::Format::extensions, crate::specs::Pieces::held))]
pub fn read_extensions(s: &[u8]) -> Step
    ensures { result ≡ step_of (extensions.dec s.now) }
{
    let held = read_content::expect(s, 0xa1)?;
    let end = held.start + held.len;
    read_sequence::closed(held.start, end, read_held(&s[held.start..end]))
}
