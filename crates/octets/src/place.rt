// Octets written at a place of a lent buffer.
ghost use Rattle.std.specs.Prelude.{◌≡◌, length};
ghost use Rattle.octets.specs.Buffer.{put_in, put_answer};

// Writes all of src at a place, and gives the place after it, or writes nothing where there is no room for it.
#[tactic(auto, using(crate::specs::BufferLaws::put_answer_short, crate::specs::BufferLaws::put_in_short, crate::specs::BufferLaws::put_answer_room))]
pub fn put(out: &mut [u8], at: usize, src: &[u8]) -> Option<usize>
    ensures value { result ≡ put_answer (length out.old) at (length src.now) }
    ensures out_after { out.new ≡ put_in out.old at src.now }
{
    if out.len() < at || out.len() - at < src.len() {
        return None;
    }
    for i in 0..src.len() {
        out[at + i] = src[i];
    }
    Some(at + src.len())
}
