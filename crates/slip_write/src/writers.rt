// An answer as a slip, by the slip rules or with none asked.
ghost use Rattle.std.specs.Prelude.{◌≡◌, length};
ghost use Rattle.fields.specs.Output.{output_of, output_in};
ghost use Rattle.slip.specs.Slip.{slip_of, slip_refusal};

use crate::puts;
use answer::Answer;
use fields::Output;

// 17 where the answer breaks the slip rules, else 0.
#[tactic(auto, unfolding(slip::specs::Slip::slip_refusal))]
fn refusal_of(answer: Answer) -> u8
    ensures { result ≡ slip_refusal answer }
{
    if slip::slip_fits(answer) {
        return 0;
    }
    17
}

// Writes the slip of an answer: 17 where it breaks the slip rules, then 18 where the buffer is too
// short, and the buffer as it was.
pub fn write_slip(answer: Answer, out: &mut [u8]) -> Output
    ensures value { result ≡ output_of (slip_refusal answer) (length out.old) (length (slip_of answer)) }
    ensures out_after { out.new ≡ output_in (slip_refusal answer) out.old (slip_of answer) }
{
    let refusal = refusal_of(answer);
    puts::write_with(answer, refusal, out)
}

// Writes the octets of an answer and does not ask the slip rules: what is written of an answer that
// breaks them is no slip. For a caller that has proved that they are kept, as of every answer of the check.
pub fn write_unjudged(answer: Answer, out: &mut [u8]) -> Output
    ensures value { result ≡ output_of 0 (length out.old) (length (slip_of answer)) }
    ensures out_after { out.new ≡ output_in 0 out.old (slip_of answer) }
{
    puts::write_with(answer, 0, out)
}
