// The program's line: the slip of the answer to its input, as hex.
ghost use Rattle.std.specs.Prelude.{◌≡◌, length};
ghost use Rattle.octets.specs.Buffer.{put_in, put_size};
ghost use Rattle.answer.specs.Verdict.{without_place};
ghost use Rattle.slip.specs.Slip.{slip_of, read_of};
ghost use Rattle.desk_question.specs.Asked.{desk_of};
ghost use Rattle.desk_question.specs.Line.{question_end, line_of};

// Where the question of an input ends: after 353 octets, or where the input does.
#[tactic(auto, using(crate::proofs::LineCases::end_least_lem))]
fn question_end(input: &[u8]) -> usize
    ensures { result ≡ question_end (length input.now) }
{
    input.len().min(353)
}

// Writes the slip of the answer to an input, as `slip_for` does.
#[tactic(auto, using(crate::proofs::LineCases::end_cases))]
fn desk_slip(input: &[u8], out: &mut [u8]) -> usize
    ensures value { result ≡ put_size out.old (slip_of (desk_of input.now)) }
    ensures out_after { out.new ≡ put_in out.old 0 (slip_of (desk_of input.now)) }
{
    let end = question_end(input);
    desk_case::slip_for(&input[..end], &input[end..], out)
}

// Writes the line of an input at the start of a buffer: how many octets, or 0 where there is no room
// for them. Reading the slip that the line is the hex of gives back the answer, without its place.
#[tactic(auto, using(crate::proofs::LineCases::line_cases))]
pub fn line_for(input: &[u8], out: &mut [u8]) -> usize
    ensures value { result ≡ put_size out.old (line_of input.now) }
    ensures out_after { out.new ≡ put_in out.old 0 (line_of input.now) }
    ensures input_value { read_of 20 (slip_of (desk_of input.now)) ≡ without_place (desk_of input.now) }
{
    let mut slip = [0u8; 87];
    let size = desk_slip(input, &mut slip);
    hexadecimal::hex_line(&slip[..size], out)
}
