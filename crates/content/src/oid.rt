// The content of an OID.
ghost use Rattle.std.specs.Prelude.{◌≡◌};
ghost use Rattle.content.specs.Oid.{oid_ok};

// Whether these octets are the content of an OID.
#[tactic(auto, using(crate::proofs::Cases::oid_empty, crate::proofs::Cases::oid_start, crate::proofs::Cases::oid_80, crate::proofs::Cases::oid_begins, crate::proofs::Cases::oid_goes, crate::proofs::Cases::oid_end))]
pub fn oid_fits(s: &[u8]) -> bool
    ensures { result ≡ oid_ok s.now }
{
    if s.is_empty() {
        return false;
    }
    let mut begins = true;
    for x in s {
        if begins && *x == 128 {
            return false;
        }
        begins = *x < 128;
    }
    begins
}
