// Certificates.
ghost use Rattle.std.specs.Prelude.{◌≡◌};
ghost use Rattle.codec.proofs.Sequence.{only};
ghost use Rattle.codec.proofs.Many.{many};
ghost use Rattle.codec.specs.Views.{step_of, fit_of};
ghost use Rattle.layout.proofs.ElementKinds.{sequence, free_sequence};
ghost use Rattle.layout.proofs.Format.{certificates};
ghost use Rattle.read_signer.specs.Run.{certificate_run};

use codec::{Fit, Step};
use element::Misfit;

// Up to 8 certificates, to the end of s.
fn certificate_run(s: &[u8]) -> Fit
    ensures { result ≡ fit_of (certificate_run.dec s.now) }
{
    let mut at: usize = 0;
    let mut count: usize = 0;
    while at < s.len() {
        if count == 8 {
            return Err(Misfit { place: at });
        }
        match tree::read_tree_tagged(&s[at..], 0x30, 16) {
            Err(misfit) => {
                let place = at + misfit.place;
                return Err(Misfit { place });
            }
            Ok(n) => {
                at += n;
                count += 1;
            }
        }
    }
    Ok(())
}

// A sequence of certificates.
#[tactic(auto, using(read_sequence::specs::CaseLaws::tagged_wrong, read_sequence::specs::CaseLaws::tagged_end, read_sequence::specs::CaseLaws::tagged_sum, read_sequence::specs::CaseLaws::tagged_closed))]
fn read_list(s: &[u8]) -> Step
    ensures { result ≡ step_of ((sequence certificate_run).dec s.now) }
{
    let held = read_content::expect(s, 0x30)?;
    let end = held.start + held.len;
    read_sequence::closed(held.start, end, certificate_run(&s[held.start..end]))
}

// The sequence and nothing more.
#[tactic(auto, using(read_sequence::specs::CaseLaws::filled_only))]
fn list_alone(s: &[u8]) -> Fit
    ensures { result ≡ fit_of ((only (sequence certificate_run)).dec s.now) }
{
    read_sequence::filled(read_list(s), s.len())
}

// certs [0]
#[tactic(auto, using(read_sequence::specs::CaseLaws::tagged_wrong, read_sequence::specs::CaseLaws::tagged_end, read_sequence::specs::CaseLaws::tagged_sum, read_sequence::specs::CaseLaws::tagged_closed), unfolding(layout::proofs::Format::certificates, crate::specs::Run::certificate_run))]
pub fn read_certificates(s: &[u8]) -> Step
    ensures { result ≡ step_of (certificates.dec s.now) }
{
    let held = read_content::expect(s, 0xa0)?;
    let end = held.start + held.len;
    read_sequence::closed(held.start, end, list_alone(&s[held.start..end]))
}
