// What a writer answers, before it writes.
ghost use Rattle.std.specs.Prelude.{◌≡◌};
ghost use Rattle.fields.specs.Output.{output_of};

use crate::Output;

// The refusal of what is to be written (0: none), then 18 where a buffer of this size has no room for
// n octets, else that n are written.
#[tactic(auto, using(crate::proofs::Cases::room_refused, crate::proofs::Cases::room_short, crate::proofs::Cases::room_enough))]
pub fn room_for(refusal: u8, size: usize, n: usize) -> Output
    ensures { result ≡ output_of refusal size n }
{
    if refusal != 0 {
        return Output::Refused(refusal);
    }
    if size < n {
        return Output::Refused(18);
    }
    Output::Octets(n)
}
