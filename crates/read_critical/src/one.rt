// One extension: whether it is critical and not understood. The OIDs that are understood are two lent
// parts.
ghost use Rattle.std.specs.Prelude.{◌≡◌, [], ◌∷◌};
ghost use Rattle.read_critical.specs.Strange.{strange_here};

// Whether an extension is critical and its OID neither a nor b, by its OID and the octets after it.
#[tactic(auto, unfolding(crate::specs::Strange::strange_here, codec::specs::Keys::new_to))]
pub(crate) fn is_strange(oid: &[u8], rest: &[u8], a: &[u8], b: &[u8]) -> bool
    ensures { result ≡ strange_here (a.now ∷ b.now ∷ []) oid.now rest.now }
{
    read_sequence::starts_with(rest, 0x01) && !octets::same(a, oid) && !octets::same(b, oid)
}
