// Octets as lower-case hex.
//
// No public function here has a requirement: where the buffer is too short the answer is 0, and the
// buffer is as it was.
#![tactic(auto)]

ghost use Rattle.std.specs.Prelude.{◌<◌, ◌≡◌};
ghost use Rattle.octets.specs.Buffer.{put_in, put_size};
ghost use Rattle.hexadecimal.specs.Hex.{digit_of, hex_of, hex_line};

// The digit of a number below 16.
#[tactic(auto, using(crate::specs::HexLaws::digit_low, crate::specs::HexLaws::digit_high))]
pub(crate) fn digit(n: u8) -> u8
    requires { n < 16 }
    ensures { result ≡ digit_of n }
{
    if n < 10 { b'0' + n } else { b'a' + (n - 10) }
}

// Writes two digits for each octet at the start of a buffer: how many, or 0 where there is no room
// for them.
#[tactic(auto, using(crate::proofs::Turns::hexed_none, crate::proofs::Turns::hexed_next, crate::proofs::Turns::hexed_end, crate::proofs::Turns::hex_none, crate::proofs::Turns::hex_kept, crate::proofs::Turns::hex_size))]
pub fn hex(src: &[u8], out: &mut [u8]) -> usize
    ensures value { result ≡ put_size out.old (hex_of src.now) }
    ensures out_after { out.new ≡ put_in out.old 0 (hex_of src.now) }
{
    let size = src.len() * 2;
    if out.len() < size {
        return 0;
    }
    for (i, octet) in src.iter().enumerate() {
        out[i * 2] = digit(*octet / 16);
        out[i * 2 + 1] = digit(*octet % 16);
    }
    size
}

// Writes the digits and a line feed at the start of a buffer: how many octets, or 0 where there is no
// room for them.
#[tactic(auto, using(crate::proofs::Turns::line_none, crate::proofs::Turns::line_kept, crate::proofs::Turns::line_size, crate::proofs::Turns::line_end))]
pub fn hex_line(src: &[u8], out: &mut [u8]) -> usize
    ensures value { result ≡ put_size out.old (hex_line src.now) }
    ensures out_after { out.new ≡ put_in out.old 0 (hex_line src.now) }
{
    let size = src.len() * 2;
    if out.len() <= size {
        return 0;
    }
    hex(src, out);
    out[size] = b'\n';
    size + 1
}
