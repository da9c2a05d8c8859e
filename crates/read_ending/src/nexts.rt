// nextUpdate.
ghost use Rattle.std.specs.Prelude.{◌≡◌};
ghost use Rattle.codec.proofs.Sequence.{only};
ghost use Rattle.codec.specs.Views.{step_of, fit_of};
ghost use Rattle.layout.proofs.ElementKinds.{time};
ghost use Rattle.layout.proofs.Format.{next_update};

use codec::{Fit, Step};

// A time and nothing more.
#[tactic(auto, using(read_sequence::specs::CaseLaws::filled_only))]
fn time_alone(s: &[u8]) -> Fit
    ensures { result ≡ fit_of ((only time).dec s.now) }
{
    read_sequence::filled(read_numbers::judge_time(s), s.len())
}

// nextUpdate [0].
#[tactic(auto, using(read_sequence::specs::CaseLaws::tagged_wrong, read_sequence::specs::CaseLaws::tagged_end, read_sequence::specs::CaseLaws::tagged_sum, read_sequence::specs::CaseLaws::tagged_closed), unfolding(layout::proofs::Format::next_update))]
pub(crate) fn judge_next(s: &[u8]) -> Step
    ensures { result ≡ step_of (next_update.dec s.now) }
{
    let held = read_content::expect(s, 0xa0)?;
    let end = held.start + held.len;
    read_sequence::closed(held.start, end, time_alone(&s[held.start..end]))
}
