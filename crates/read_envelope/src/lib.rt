// The envelope of a response, judged whole: the status of an error response, or whether the type is
// the basic one and how long the string is that holds the response itself.
//
// No public function here has a requirement. What the string holds is not looked at.
#![tactic(auto)]

ghost use Rattle.std.specs.Prelude.{◌+◌, ◌^◌, ◌<◌, ◌≡◌};
ghost use Rattle.codec.proofs.Sequence.{only};
ghost use Rattle.layout.proofs.Format.{response_bytes, envelope_body, envelope};
ghost use Rattle.read_envelope.specs.Cover.{type_string, type_sequence, covered_by, broken_at, bytes_of, cover_of};

use element::Misfit;

// What an envelope is.
#[derive(Clone, Copy, Debug, PartialEq, Eq)]
pub enum Cover {
    // An error response, with its status.
    Failed(u8),
    // A successful one: whether its type is the basic one, and how many octets its string has, which
    // are its last.
    Holds { basic: bool, len: usize },
}

// An element that is to fill size octets, by its content from start to end.
#[tactic(auto, unfolding(crate::specs::Cover::covered_by))]
fn closed(
    start: usize,
    end: usize,
    size: usize,
    inner: Result<Cover, Misfit>,
) -> Result<Cover, Misfit>
    requires { start + broken_at inner < 2 ^ 64 }
    ensures { result ≡ covered_by start end size inner }
{
    let cover = inner.map_err(|m| Misfit {
        place: start + m.place,
    })?;
    if end == size {
        Ok(cover)
    } else {
        Err(Misfit { place: end })
    }
}

// The type's OID, then the string, which fills the rest.
#[tactic(auto, using(crate::proofs::StringCases::string_cases))]
fn type_and_string(s: &[u8]) -> Result<Cover, Misfit>
    ensures { result ≡ bytes_of (type_string.dec s.now) }
{
    let kind = read_content::read_oid(s)?;
    let end = kind.start + kind.len;
    let basic = octets::same(&s[kind.start..end], b"\x2b\x06\x01\x05\x05\x07\x30\x01\x01");
    let string = read_content::read_any_string(&s[end..]).map_err(|m| Misfit {
        place: end + m.place,
    })?;
    let to = end + string.start + string.len;
    if to == s.len() {
        Ok(Cover::Holds {
            basic,
            len: string.len,
        })
    } else {
        Err(Misfit { place: to })
    }
}

// A sequence of them, and nothing more.
#[tactic(auto, using(crate::proofs::CoverCases::held_cases), unfolding(crate::specs::Cover::type_sequence))]
fn bytes_sequence(s: &[u8]) -> Result<Cover, Misfit>
    ensures { result ≡ bytes_of (type_sequence.dec s.now) }
{
    let held = read_content::expect(s, 0x30)?;
    let end = held.start + held.len;
    closed(
        held.start,
        end,
        s.len(),
        type_and_string(&s[held.start..end]),
    )
}

// responseBytes [0], and nothing more.
#[tactic(auto, using(crate::proofs::CoverCases::bytes_cases))]
fn response_bytes(s: &[u8]) -> Result<Cover, Misfit>
    ensures { result ≡ bytes_of ((only response_bytes).dec s.now) }
{
    let held = read_content::expect(s, 0xa0)?;
    let end = held.start + held.len;
    closed(
        held.start,
        end,
        s.len(),
        bytes_sequence(&s[held.start..end]),
    )
}

// The status, and what it wants after it: the bytes, or nothing.
#[tactic(auto, using(crate::proofs::CoverCases::body_cases))]
fn envelope_body(s: &[u8]) -> Result<Cover, Misfit>
    ensures { result ≡ cover_of (envelope_body.dec s.now) }
{
    let status = read_codes::read_code(s)?;
    let next = status.next;
    if status.value == 0 {
        return closed(next, s.len(), s.len(), response_bytes(&s[next..]));
    }
    if next == s.len() {
        Ok(Cover::Failed(status.value))
    } else {
        Err(Misfit { place: next })
    }
}

// OCSPResponse ::= SEQUENCE { responseStatus, responseBytes [0] OPTIONAL }, and nothing more.
#[tactic(auto, using(crate::proofs::CoverCases::held_cases), unfolding(layout::proofs::Format::envelope))]
pub fn read_envelope(s: &[u8]) -> Result<Cover, Misfit>
    ensures { result ≡ cover_of (envelope.dec s.now) }
{
    let held = read_content::expect(s, 0x30)?;
    let end = held.start + held.len;
    closed(held.start, end, s.len(), envelope_body(&s[held.start..end]))
}
