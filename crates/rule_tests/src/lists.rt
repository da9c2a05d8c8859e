// Critical extensions that are not understood (refusals 9 and 12).
ghost use Rattle.std.specs.Prelude.{◌≡◌, [], ◌∷◌};
ghost use Rattle.read_critical.specs.Strange.{strange_of};
ghost use Rattle.rule_tests.specs.StrangePlace.{is_place, response_known, entry_known};

// Whether a critical extension has another OID than these two.
#[tactic(auto, unfolding(crate::specs::StrangePlace::is_place))]
fn strange_among(part: &[u8], a: &[u8], b: &[u8]) -> bool
    ensures { result ≡ is_place (strange_of (a.now ∷ b.now ∷ []) part.now) }
{
    read_critical::strange_place(part, a, b).is_some()
}

// Whether a critical extension of the response is not understood: nonce and extended revoke are. Where
// there are no extensions at all, nothing more is looked at.
#[tactic(auto, using(crate::proofs::PlaceCases::nothing_there))]
pub fn strange_in_response(part: &[u8]) -> bool
    ensures { result ≡ is_place (strange_of response_known part.now) }
{
    if part.len() == 0 {
        return false;
    }
    let nonce: [u8; 9] = [0x2b, 0x06, 0x01, 0x05, 0x05, 0x07, 0x30, 0x01, 0x02];
    let revoke: [u8; 9] = [0x2b, 0x06, 0x01, 0x05, 0x05, 0x07, 0x30, 0x01, 0x09];
    strange_among(part, &nonce, &revoke)
}

// Whether a critical extension of an entry is not understood: archive cutoff is; where
// there are none at all, likewise.
#[tactic(auto, using(crate::proofs::PlaceCases::nothing_there))]
pub fn strange_in_entry(part: &[u8]) -> bool
    ensures { result ≡ is_place (strange_of entry_known part.now) }
{
    if part.len() == 0 {
        return false;
    }
    let cutoff: [u8; 9] = [0x2b, 0x06, 0x01, 0x05, 0x05, 0x07, 0x30, 0x01, 0x06];
    strange_among(part, &cutoff, &cutoff)
}
