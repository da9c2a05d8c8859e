// What one extension holds: an OID that is new, maybe TRUE, and an OCTET STRING.
ghost use Rattle.std.specs.Prelude.{◌≡◌, []};
ghost use Rattle.codec.specs.Views.{fit_of};
ghost use Rattle.read_content.specs.Spots.{spot_of};
ghost use Rattle.layout.proofs.Format.{new_oid, extension_body};
ghost use Rattle.read_oids.specs.Seen.{oids_of};
ghost use Rattle.read_extension.specs.Pieces.{value, flagged};

use codec::Fit;
use element::Misfit;
use read_content::Spot;

// An OCTET STRING that fills s.
#[tactic(auto, using(read_sequence::specs::CaseLaws::string_sum, crate::proofs::BodyCases::value_wrong, crate::proofs::BodyCases::value_filled))]
fn read_value(s: &[u8]) -> Fit
    ensures { result ≡ fit_of (value.dec s.now) }
{
    let value = read_content::read_any_string(s)?;
    let end = value.start + value.len;
    read_sequence::filled(Ok(end), s.len())
}

// Maybe TRUE, then an OCTET STRING that fills s.
#[tactic(auto, using(crate::proofs::BodyCases::flag_end, crate::proofs::BodyCases::flag_wrong, crate::proofs::BodyCases::flag_after, crate::proofs::BodyCases::flag_none))]
fn read_flagged(s: &[u8]) -> Fit
    ensures { result ≡ fit_of (flagged.dec s.now) }
{
    if read_sequence::starts_with(s, 0x01) {
        let n = read_codes::read_true(s)?;
        return read_sequence::after(n, s.len(), read_value(&s[n..]));
    }
    read_value(s)
}

// The OID at the head of x, which is none of those of the first count extensions of s.
#[tactic(auto, using(crate::proofs::BodyCases::new_wrong, crate::proofs::BodyCases::new_end, crate::proofs::BodyCases::new_sum, crate::proofs::BodyCases::new_pass, crate::proofs::BodyCases::new_fail))]
fn read_new_oid(s: &[u8], count: usize, x: &[u8]) -> Spot
    ensures { result ≡ spot_of ((new_oid (oids_of count [] s.now)).dec x.now) }
{
    let oid = read_content::read_oid(x)?;
    let end = oid.start + oid.len;
    if read_oids::is_new(s, count, &x[oid.start..end]) {
        return Ok(oid);
    }
    Err(Misfit { place: 0 })
}

// The content x of an extension that stands after the first count of s.
#[tactic(auto, using(crate::proofs::BodyCases::body_end, crate::proofs::BodyCases::body_sum, crate::proofs::BodyCases::body_wrong, crate::proofs::BodyCases::body_after))]
pub(crate) fn read_body(s: &[u8], count: usize, x: &[u8]) -> Fit
    ensures { result ≡ fit_of ((extension_body (oids_of count [] s.now)).dec x.now) }
{
    let oid = read_new_oid(s, count, x)?;
    let end = oid.start + oid.len;
    read_sequence::after(end, x.len(), read_flagged(&x[end..]))
}
