// What follows the signed part: the algorithm, the signature, the certificates.
ghost use Rattle.std.specs.Prelude.{◌≡◌};
ghost use Rattle.codec.specs.Views.{fit_of};
ghost use Rattle.read_basic.specs.Views.{certificates_on, signature_on, algorithm_on, signature_spot, tail_of};

use crate::Tail;
use codec::Fit;
use element::Misfit;
use read_content::Spot;

// Maybe certificates, and nothing more.
#[tactic(auto, using(crate::proofs::TailCases::certificates_is))]
fn certificates_maybe(s: &[u8]) -> Fit
    ensures { result ≡ fit_of (certificates_on.dec s.now) }
{
    if read_sequence::starts_with(s, 0xa0) {
        return read_sequence::filled(read_signer::read_certificates(s), s.len());
    }
    read_sequence::filled(Ok(0), s.len())
}

// The signature, then maybe certificates: where the signature is.
#[tactic(auto, using(crate::proofs::TailCases::signature_cases))]
fn signature_and_more(s: &[u8]) -> Spot
    ensures { result ≡ signature_spot (signature_on.dec s.now) }
{
    let bits = read_content::read_bits(s)?;
    let end = bits.start + bits.len;
    certificates_maybe(&s[end..]).map_err(|m| Misfit {
        place: end + m.place,
    })?;
    Ok(bits)
}

// The algorithm, then the signature and maybe certificates.
#[tactic(auto, using(crate::proofs::TailCases::algorithm_cases))]
pub fn algorithm_and_more(s: &[u8]) -> Result<Tail, Misfit>
    ensures { result ≡ tail_of (algorithm_on.dec s.now) }
{
    let algorithm = read_algorithm::read_algorithm(s)?;
    let rest = signature_and_more(&s[algorithm..]).map_err(|m| Misfit {
        place: algorithm + m.place,
    })?;
    Ok(Tail {
        algorithm,
        start: algorithm + rest.start,
        len: rest.len,
    })
}
