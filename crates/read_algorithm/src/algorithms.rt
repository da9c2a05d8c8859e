// Algorithm identifiers.
ghost use Rattle.std.specs.Prelude.{◌≡◌};
ghost use Rattle.codec.proofs.Maybe.{maybe};
ghost use Rattle.codec.specs.Views.{step_of, fit_of};
ghost use Rattle.layout.proofs.ElementKinds.{free};
ghost use Rattle.layout.proofs.Format.{algorithm_body, algorithm_identifier};
ghost use Rattle.read_algorithm.specs.Usual.{starts_usual};

use codec::{Fit, Step};

// Nothing, or one free element and nothing more.
#[tactic(auto, using(crate::proofs::AlgorithmCases::parameters_cases))]
fn parameters(s: &[u8]) -> Fit
    ensures { result ≡ fit_of ((maybe free).dec s.now) }
{
    if s.is_empty() {
        return Ok(());
    }
    read_sequence::filled(tree::read_tree(s, 16), s.len())
}

// An OID, then parameters.
#[tactic(auto, using(crate::proofs::AlgorithmCases::body_cases))]
fn algorithm_body(s: &[u8]) -> Fit
    ensures { result ≡ fit_of (algorithm_body.dec s.now) }
{
    let oid = read_content::read_oid(s)?;
    let end = oid.start + oid.len;
    read_sequence::after(end, s.len(), parameters(&s[end..]))
}

// Any algorithm identifier, by its header and its content.
#[tactic(auto, using(read_sequence::specs::CaseLaws::tagged_cases), unfolding(layout::proofs::Format::algorithm_identifier))]
fn any_algorithm(s: &[u8]) -> Step
    ensures { result ≡ step_of (algorithm_identifier.dec s.now) }
{
    let held = read_content::expect(s, 0x30)?;
    let end = held.start + held.len;
    read_sequence::closed(held.start, end, algorithm_body(&s[held.start..end]))
}

// Whether s starts with SHA-1 and parameters 05 00, as nearly every CertID does.
#[tactic(auto, using(crate::proofs::AlgorithmCases::usual_cases))]
fn is_usual(s: &[u8]) -> bool
    ensures { result ≡ starts_usual s.now }
{
    if s.len() < 11 || s[1] != 0x09 {
        return false;
    }
    octets::same(&s[..11], b"\x30\x09\x06\x05\x2b\x0e\x03\x02\x1a\x05\x00")
}

// AlgorithmIdentifier ::= SEQUENCE { algorithm, parameters OPTIONAL }
#[tactic(auto, using(crate::specs::Usual::usual_read))]
pub fn read_algorithm(s: &[u8]) -> Step
    ensures { result ≡ step_of (algorithm_identifier.dec s.now) }
{
    if is_usual(s) {
        return Ok(11);
    }
    any_algorithm(s)
}
