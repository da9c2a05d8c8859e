// One entry.
ghost use Rattle.std.specs.Prelude.{◌≡◌};
ghost use Rattle.codec.specs.Views.{step_of, fit_of};
ghost use Rattle.layout.proofs.Format.{single_body, single_response};
ghost use Rattle.read_entry.specs.Tails.{this_on, status_on};

use codec::{Fit, Step};

// thisUpdate, and what follows it.
#[tactic(auto, using(crate::proofs::SingleCases::this_wrong, crate::proofs::SingleCases::this_end, crate::proofs::SingleCases::this_after))]
fn this_and_more(s: &[u8]) -> Fit
    ensures { result ≡ fit_of (this_on.dec s.now) }
{
    let next = read_numbers::judge_time(s)?;
    read_sequence::after(next, s.len(), read_ending::next_and_more(&s[next..]))
}

// The certificate's status, and what follows it.
#[tactic(auto, using(crate::proofs::SingleCases::status_wrong, crate::proofs::SingleCases::status_end, crate::proofs::SingleCases::status_after))]
fn status_and_more(s: &[u8]) -> Fit
    ensures { result ≡ fit_of (status_on.dec s.now) }
{
    let n = read_status::read_status(s)?;
    read_sequence::after(n, s.len(), this_and_more(&s[n..]))
}

// The CertID, and what follows it.
#[tactic(auto, using(crate::proofs::SingleCases::body_wrong, crate::proofs::SingleCases::body_end, crate::proofs::SingleCases::body_after))]
fn single_body(s: &[u8]) -> Fit
    ensures { result ≡ fit_of (single_body.dec s.now) }
{
    let n = read_cert_id::read_cert(s)?;
    read_sequence::after(n, s.len(), status_and_more(&s[n..]))
}

// SingleResponse ::= SEQUENCE { certID, certStatus, thisUpdate, nextUpdate [0] OPTIONAL, singleExtensions [1] OPTIONAL }
#[tactic(auto, using(read_sequence::specs::CaseLaws::tagged_wrong, read_sequence::specs::CaseLaws::tagged_end, read_sequence::specs::CaseLaws::tagged_sum, read_sequence::specs::CaseLaws::tagged_closed), unfolding(layout::proofs::Format::single_response))]
pub fn read_single(s: &[u8]) -> Step
    ensures { result ≡ step_of (single_response.dec s.now) }
{
    let held = read_content::expect(s, 0x30)?;
    let end = held.start + held.len;
    read_sequence::closed(held.start, end, single_body(&s[held.start..end]))
}
