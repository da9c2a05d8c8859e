// Eight octets as one number.
ghost use Rattle.std.specs.Prelude.{◌≡◌, [], ◌∷◌};
ghost use Rattle.octets.specs.Number.{low_first};

// The number of eight octets, the first with the least weight. In this form the compiler reads eight
// octets in a row at once, in either order.
pub(crate) fn weigh(a: u8, b: u8, c: u8, d: u8, e: u8, f: u8, g: u8, h: u8) -> u64
    ensures { result ≡ low_first (a ∷ b ∷ c ∷ d ∷ e ∷ f ∷ g ∷ h ∷ []) }
{
    let low = a as u64 + b as u64 * 0x100 + c as u64 * 0x1_0000 + d as u64 * 0x100_0000;
    let high = e as u64 + f as u64 * 0x100 + g as u64 * 0x1_0000 + h as u64 * 0x100_0000;
    low + high * 0x1_0000_0000
}
