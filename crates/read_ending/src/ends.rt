// The last parts, to the end of what is lent.
ghost use Rattle.std.specs.Prelude.{◌≡◌};
ghost use Rattle.codec.specs.Views.{fit_of};
ghost use Rattle.read_ending.specs.Ends.{extensions_on, next_on};

use crate::nexts;
use codec::Fit;
use element::Misfit;

// Maybe extensions, and nothing more.
#[tactic(auto, using(crate::proofs::EndCases::ends_empty, crate::proofs::EndCases::ends_other, crate::proofs::EndCases::ends_there))]
pub fn extensions_maybe(s: &[u8]) -> Fit
    ensures { result ≡ fit_of (extensions_on.dec s.now) }
{
    if s.len() == 0 {
        return Ok(());
    }
    if s[0] != 0xa1 {
        return Err(Misfit { place: 0 });
    }
    read_sequence::filled(read_extensions::read_extensions(s), s.len())
}

// The same where there is mostly nothing, which is told first.
#[tactic(auto, using(crate::proofs::EndCases::ends_empty))]
fn extensions_seldom(s: &[u8]) -> Fit
    ensures { result ≡ fit_of (extensions_on.dec s.now) }
{
    if s.len() == 0 {
        return Ok(());
    }
    extensions_maybe(s)
}

// Maybe nextUpdate, then maybe extensions.
#[tactic(auto, using(crate::proofs::EndCases::next_wrong, crate::proofs::EndCases::next_end, crate::proofs::EndCases::next_after, crate::proofs::EndCases::next_missing))]
pub fn next_and_more(s: &[u8]) -> Fit
    ensures { result ≡ fit_of (next_on.dec s.now) }
{
    if read_sequence::starts_with(s, 0xa0) {
        let next = nexts::judge_next(s)?;
        return read_sequence::after(next, s.len(), extensions_seldom(&s[next..]));
    }
    extensions_maybe(s)
}
