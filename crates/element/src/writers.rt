// The header of an element, written into a lent buffer.
ghost use Rattle.std.specs.Prelude.{◌≡◌, ◌∷◌, ◌≤◌, length};
ghost use Rattle.octets.specs.Buffer.{put_in};
ghost use Rattle.octets.specs.Number.{octets_of};
ghost use Rattle.element.specs.Length.{length_form};
ghost use Rattle.element.specs.Form.{head_form, room_answer, header_in, header_answer};

use crate::{Unformed, lengths, tags};

// A header whose length has k octets after the first.
#[tactic(auto, using(crate::proofs::WriteCases::room_cases))]
fn put_head(
    out: &mut [u8],
    at: usize,
    tag: u8,
    len: usize,
    first: u8,
    k: usize,
) -> Result<usize, Unformed>
    requires k_bound { k ≤ 8 }
    requires len_value { length_form len ≡ first ∷ octets_of k len }
    ensures value { result ≡ room_answer (length out.old) at len }
    ensures out_after { out.new ≡ put_in out.old at (head_form tag len) }
{
    let size = 2 + k;
    if out.len() < at || out.len() - at < size {
        return Err(Unformed::Short);
    }
    octets::put(out, at, &[tag, first]);
    octets::put_number(out, at + 2, k, len as u64);
    Ok(at + size)
}

// Writes the tag and the length octets at a place; nothing where there is no room for them, or no
// element has such a tag.
#[tactic(auto, using(crate::proofs::WriteCases::tag_cases))]
pub fn put_header(out: &mut [u8], at: usize, tag: u8, len: usize) -> Result<usize, Unformed>
    ensures value { result ≡ header_answer (length out.old) at tag len }
    ensures out_after { out.new ≡ header_in out.old at tag len }
{
    if !tags::tag_fits(tag) {
        return Err(Unformed::NoTag);
    }
    if len < 128 {
        return put_head(out, at, tag, len, len as u8, 0);
    }
    let k = lengths::length_count(len as u64);
    put_head(out, at, tag, len, 0x80 | k as u8, k)
}
