// version [0]: A0 around an INTEGER, which can only be 0.
ghost use Rattle.std.specs.Prelude.{◌≡◌};
ghost use Rattle.codec.proofs.Sequence.{only};
ghost use Rattle.codec.specs.Views.{step_of, fit_of};
ghost use Rattle.layout.proofs.Format.{v1, version};

use codec::{Fit, Step};

// The number 0 and nothing more.
#[tactic(auto, using(read_sequence::specs::CaseLaws::filled_only))]
fn version_alone(s: &[u8]) -> Fit
    ensures { result ≡ fit_of ((only v1).dec s.now) }
{
    read_sequence::filled(read_codes::read_v1(s), s.len())
}

// version [0].
#[tactic(auto, using(read_sequence::specs::CaseLaws::tagged_wrong, read_sequence::specs::CaseLaws::tagged_end, read_sequence::specs::CaseLaws::tagged_sum, read_sequence::specs::CaseLaws::tagged_closed), unfolding(layout::proofs::Format::version))]
pub fn read_version(s: &[u8]) -> Step
    ensures { result ≡ step_of (version.dec s.now) }
{
    let held = read_content::expect(s, 0xa0)?;
    let end = held.start + held.len;
    read_sequence::closed(held.start, end, version_alone(&s[held.start..end]))
}
