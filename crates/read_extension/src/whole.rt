// The 30 around what an extension holds.
ghost use Rattle.std.specs.Prelude.{◌≡◌, []};
ghost use Rattle.codec.specs.Views.{step_of};
ghost use Rattle.layout.proofs.Format.{extension_after};
ghost use Rattle.read_oids.specs.Seen.{oids_of};

use crate::body;
use codec::Step;

// The extension at the head of x, which stands after the first count of s.
#[tactic(auto, using(read_sequence::specs::CaseLaws::tagged_wrong, read_sequence::specs::CaseLaws::tagged_end, read_sequence::specs::CaseLaws::tagged_sum, read_sequence::specs::CaseLaws::tagged_closed), unfolding(layout::proofs::Format::extension_after))]
pub fn read_extension(s: &[u8], count: usize, x: &[u8]) -> Step
    ensures { result ≡ step_of ((extension_after (oids_of count [] s.now)).dec x.now) }
{
    let held = read_content::expect(x, 0x30)?;
    let end = held.start + held.len;
    let fit = body::read_body(s, count, &x[held.start..end]);
    read_sequence::closed(held.start, end, fit)
}
