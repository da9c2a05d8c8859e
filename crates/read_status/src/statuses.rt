// Good, revoked, unknown.
ghost use Rattle.std.specs.Prelude.{◌≡◌};
ghost use Rattle.codec.proofs.Sequence.{only};
ghost use Rattle.codec.specs.Views.{step_of, fit_of};
ghost use Rattle.layout.specs.Words.{reason_ok};
ghost use Rattle.layout.proofs.ElementKinds.{enumerated, optional};
ghost use Rattle.layout.proofs.Format.{reason, reason_starts, revoked_body, revoked_status, cert_status};

use codec::{Fit, Step};

// The code of a reason and nothing more.
#[tactic(auto, using(crate::proofs::StatusCases::reason_filled))]
fn reason_body(s: &[u8]) -> Fit
    ensures { result ≡ fit_of ((only (enumerated reason_ok)).dec s.now) }
{
    read_sequence::filled(read_codes::read_reason_code(s), s.len())
}

// revocationReason [0]
#[tactic(auto, using(crate::proofs::StatusCases::reason_cases))]
fn read_reason(s: &[u8]) -> Step
    ensures { result ≡ step_of (reason.dec s.now) }
{
    let held = read_content::expect(s, 0xa0)?;
    let end = held.start + held.len;
    read_sequence::closed(held.start, end, reason_body(&s[held.start..end]))
}

// Maybe a reason, and nothing more. No reason takes no octet.
#[tactic(auto, using(crate::proofs::StatusCases::maybe_cases))]
fn reason_maybe(s: &[u8]) -> Fit
    ensures { result ≡ fit_of ((optional 0xa0 reason reason_starts).dec s.now) }
{
    if read_sequence::starts_with(s, 0xa0) {
        return read_sequence::filled(read_reason(s), s.len());
    }
    read_sequence::filled(Ok(0), s.len())
}

// The time of a revocation, then maybe its reason.
#[tactic(auto, using(crate::proofs::StatusCases::body_cases))]
fn revoked_body(s: &[u8]) -> Fit
    ensures { result ≡ fit_of (revoked_body.dec s.now) }
{
    let n = read_numbers::judge_time(s)?;
    read_sequence::after(n, s.len(), reason_maybe(&s[n..]))
}

// revoked [1]
#[tactic(auto, using(read_sequence::specs::CaseLaws::tagged_cases), unfolding(layout::proofs::Format::revoked_status))]
fn read_revoked(s: &[u8]) -> Step
    ensures { result ≡ step_of (revoked_status.dec s.now) }
{
    let held = read_content::expect(s, 0xa1)?;
    let end = held.start + held.len;
    read_sequence::closed(held.start, end, revoked_body(&s[held.start..end]))
}

// CertStatus ::= CHOICE { good [0], revoked [1], unknown [2] }, by the first octet.
#[tactic(auto, using(crate::proofs::StatusCases::status_cases), unfolding(layout::proofs::Format::cert_status))]
pub fn read_status(s: &[u8]) -> Step
    ensures { result ≡ step_of (cert_status.dec s.now) }
{
    if read_sequence::starts_with(s, 0x80) {
        return read_codes::read_good(s);
    }
    if read_sequence::starts_with(s, 0x82) {
        return read_codes::read_unknown(s);
    }
    read_revoked(s)
}
