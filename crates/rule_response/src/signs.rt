// Who signed (refusal 7).
ghost use Rattle.std.specs.Prelude.{◌≡◌};
ghost use Rattle.rule_response.specs.SignerIn.{key_in, signs_in};

// Whether a responder id by key has this hash.
#[tactic(auto, using(octets::specs::LentLaws::rest_is), unfolding(crate::specs::SignerIn::key_in))]
fn signs_by_key(part: &[u8], key: [u8; 20]) -> bool
    ensures { result ≡ key_in key part.now }
{
    4 <= part.len() && octets::same(&part[4..], &key)
}

// Whether a responder id, header included, is the signer's: by the hash of its key, or by its Name.
#[tactic(auto, using(crate::proofs::SignCases::sign_cases))]
pub(crate) fn signs(part: &[u8], key: [u8; 20], name: &[u8]) -> bool
    ensures { result ≡ signs_in key name.now part.now }
{
    match read_content::expect(part, 0xa1) {
        Ok(held) => {
            let end = held.start + held.len;
            octets::same(&part[held.start..end], name)
        }
        Err(_) => signs_by_key(part, key),
    }
}
