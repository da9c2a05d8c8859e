// The parts of a request, each written at its place: a hash has 20 octets, so every place is known.
ghost use Rattle.std.specs.Prelude.{◌≡◌, ◌++◌, ◌+◌, ◌≤◌, length};
ghost use Rattle.octets.specs.Buffer.{put_in};
ghost use Rattle.element.specs.Form.{form_of};
ghost use Rattle.layout.specs.Sha1.{null_head};
ghost use Rattle.request.specs.Heads.{front_form};

// Writes what stands before the name hash: the headers of five sequences, the algorithm identifier, and
// the hash's own header. Every length is below 128 and 57, 59, .. 65 more than the serial's.
#[tactic(auto, using(crate::proofs::WriteCases::front_in))]
pub(crate) fn put_front(out: &mut [u8], size: u8)
    requires { (size ≤ 20) × (23 ≤ length out.old) }
    ensures { out.new ≡ put_in out.old 0 (front_form null_head 20 (57 + size)) }
{
    let heads = [
        0x30,
        size + 65,
        0x30,
        size + 63,
        0x30,
        size + 61,
        0x30,
        size + 59,
        0x30,
        size + 57,
    ];
    let sha1 = b"\x30\x09\x06\x05\x2b\x0e\x03\x02\x1a\x05\x00\x04\x14";
    octets::put(out, 0, &heads);
    octets::put(out, 10, sha1);
}

// Writes the name hash, and the key hash with its header.
#[tactic(auto, using(crate::proofs::WriteCases::hashes_in))]
pub(crate) fn put_hashes(out: &mut [u8], name: &[u8], key: &[u8])
    requires { (length name.now ≡ 20) × (length key.now ≡ 20) × (65 ≤ length out.old) }
    ensures { out.new ≡ put_in out.old 23 (name.now ++ form_of 0x04 key.now) }
{
    octets::put(out, 23, name);
    octets::put(out, 43, b"\x04\x14");
    octets::put(out, 45, key);
}

// Writes the serial's octets. Sixteen or more are written as the first sixteen and the last four, which
// overlap: parts of a fixed size are copied without a call.
#[tactic(auto, using(crate::proofs::WriteCases::first_taken, crate::proofs::WriteCases::over_in))]
fn put_octets(out: &mut [u8], serial: &[u8])
    requires { (length serial.now ≤ 20) × (67 + length serial.now ≤ length out.old) }
    ensures { out.new ≡ put_in out.old 67 serial.now }
{
    if serial.len() < 16 {
        octets::put(out, 67, serial);
        return;
    }
    let last = serial.len() - 4;
    octets::put(out, 67, &serial[..16]);
    octets::put(out, 67 + last, &serial[last..]);
}

// Writes the serial with its header.
#[tactic(auto, using(crate::proofs::WriteCases::serial_in_lem))]
pub(crate) fn put_serial(out: &mut [u8], serial: &[u8])
    requires { (length serial.now ≤ 20) × (67 + length serial.now ≤ length out.old) }
    ensures { out.new ≡ put_in out.old 65 (form_of 0x02 serial.now) }
{
    let head = [0x02, serial.len() as u8];
    octets::put(out, 65, &head);
    put_octets(out, serial);
}
