// The parts of a response: where they are, and the octets of the signed part and of the signature.
ghost use Rattle.std.specs.Prelude.{◌≡◌};
ghost use Rattle.show.specs.Parts.{no_parts, shown_parts};
ghost use Rattle.show.specs.Shown.{octets_in, signed_of, signature_of};

use read_response::{Parts, Span, Unread};

// The parts of what has none: each is empty.
fn no_parts() -> Parts
    ensures { result ≡ no_parts }
{
    let empty = Span { start: 0, len: 0 };
    Parts {
        signed: empty,
        responder: empty,
        entries: empty,
        count: 0,
        extensions: empty,
        algorithm: empty,
        signature: empty,
        certificates: empty,
    }
}

// The parts of a response, by what it is; all empty where it is refused.
#[tactic(auto, unfolding(crate::specs::Parts::shown_parts))]
pub fn parts_of(judged: Result<Parts, Unread>) -> Parts
    ensures { result ≡ shown_parts judged }
{
    match judged {
        Ok(parts) => parts,
        Err(_) => no_parts(),
    }
}

// The octets at a place, as far as s has them: the caller's own.
#[tactic(auto, using(crate::proofs::ShownCases::span_cases))]
pub fn octets_at<'a>(s: &'a [u8], at: Span) -> &'a [u8]
    ensures { result.now ≡ octets_in s.now at }
{
    let start = at.start;
    let len = at.len;
    if s.len() < start {
        return &s[..0];
    }
    let rest = &s[start..];
    if rest.len() < len {
        return rest;
    }
    &rest[..len]
}

// The signed part, header included: the caller's own octets; nothing where there is a refusal.
#[tactic(auto, using(crate::proofs::PartsLaws::signed_octets))]
pub fn signed_part<'a>(s: &'a [u8]) -> &'a [u8]
    ensures { result.now ≡ signed_of s.now }
{
    let parts = parts_of(read_response::judge(s));
    octets_at(s, parts.signed)
}

// The signature, without its 00: the caller's own octets; nothing where there is a refusal.
#[tactic(auto, using(crate::proofs::PartsLaws::signature_octets))]
pub fn signature<'a>(s: &'a [u8]) -> &'a [u8]
    ensures { result.now ≡ signature_of s.now }
{
    let parts = parts_of(read_response::judge(s));
    octets_at(s, parts.signature)
}
