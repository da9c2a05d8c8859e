// One chunk of an input, kept after those that came before it.
ghost use Rattle.std.specs.Prelude.{◌≡◌, length};
ghost use Rattle.desk_intake.specs.Kept.{kept_with, space_kept};

// Writes as many octets of a chunk as there is room for, after the first `done` octets of a space, and
// leaves the rest of the space as it was: how many octets are then kept. Where `done` is past the space
// nothing is written, and all of the space is kept.
#[tactic(auto, using(crate::proofs::Cases::keep_cases))]
pub fn keep(space: &mut [u8], done: usize, chunk: &[u8]) -> usize
    ensures value { result ≡ length (kept_with space.old done chunk.now) }
    ensures space_after { space.new ≡ space_kept space.old done chunk.now }
{
    if space.len() < done {
        return space.len();
    }
    let room = space.len() - done;
    if room < chunk.len() {
        octets::put(space, done, &chunk[..room]);
        return space.len();
    }
    octets::put(space, done, chunk);
    done + chunk.len()
}
