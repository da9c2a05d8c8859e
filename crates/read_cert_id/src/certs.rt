// CertIDs.
ghost use Rattle.std.specs.Prelude.{◌≡◌};
ghost use Rattle.codec.proofs.Sequence.{field, only};
ghost use Rattle.codec.specs.Views.{step_of, fit_of};
ghost use Rattle.layout.proofs.ElementKinds.{hash, serial};
ghost use Rattle.layout.proofs.Format.{cert_body, cert_id};

use codec::{Fit, Step};

// A serial and nothing more.
#[tactic(auto, using(read_sequence::specs::CaseLaws::filled_only))]
fn serial_alone(s: &[u8]) -> Fit
    ensures { result ≡ fit_of ((only serial).dec s.now) }
{
    read_sequence::filled(read_numbers::read_serial(s), s.len())
}

// The issuer's key hash, then the serial.
#[tactic(auto, using(crate::proofs::CertCases::key_cases))]
fn key_and_serial(s: &[u8]) -> Fit
    ensures { result ≡ fit_of ((field hash (only serial)).dec s.now) }
{
    let key = read_content::read_string(s, 1, 64)?;
    let end = key.start + key.len;
    read_sequence::after(end, s.len(), serial_alone(&s[end..]))
}

// The issuer's name hash, then its key hash and the serial.
#[tactic(auto, using(crate::proofs::CertCases::name_cases))]
fn hashes_and_serial(s: &[u8]) -> Fit
    ensures { result ≡ fit_of ((field hash (field hash (only serial))).dec s.now) }
{
    let name = read_content::read_string(s, 1, 64)?;
    let end = name.start + name.len;
    read_sequence::after(end, s.len(), key_and_serial(&s[end..]))
}

// The hash algorithm, then the hashes and the serial.
#[tactic(auto, using(crate::proofs::CertCases::body_cases))]
fn cert_body(s: &[u8]) -> Fit
    ensures { result ≡ fit_of (cert_body.dec s.now) }
{
    let n = read_algorithm::read_algorithm(s)?;
    read_sequence::after(n, s.len(), hashes_and_serial(&s[n..]))
}

// CertID ::= SEQUENCE { hashAlgorithm, issuerNameHash, issuerKeyHash, serialNumber }
#[tactic(auto, using(read_sequence::specs::CaseLaws::tagged_cases), unfolding(layout::proofs::Format::cert_id))]
pub fn read_cert(s: &[u8]) -> Step
    ensures { result ≡ step_of (cert_id.dec s.now) }
{
    let held = read_content::expect(s, 0x30)?;
    let end = held.start + held.len;
    read_sequence::closed(held.start, end, cert_body(&s[held.start..end]))
}
