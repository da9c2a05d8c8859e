// A CertID's octets compared with a card's.
ghost use Rattle.std.specs.Prelude.{◌≡◌, ◌<◌, min, length};
ghost use Rattle.octets.specs.Same.{same_of};
ghost use Rattle.element.specs.Form.{form_of};
ghost use Rattle.rule_matching.specs.CertForm.{last_of, card_form, is_fields};

// Whether these octets are an element with this tag, and this content of fewer than 128 octets.
#[tactic(auto, using(crate::proofs::FormCases::element_cases))]
fn is_element(s: &[u8], tag: u8, content: &[u8]) -> bool
    requires { length content.now < 128 }
    ensures { result ≡ same_of s.now (form_of tag content.now) }
{
    let size = content.len();
    s.len() == size + 2 && s[0] == tag && s[1] as usize == size && octets::same(&s[2..], content)
}

// The last octet, 0 where there is none.
fn last(s: &[u8]) -> u8
    ensures { result ≡ last_of s.now }
{
    s.last().copied().unwrap_or(0)
}

// Whether these octets are an algorithm identifier, then both hashes and the serial. The length comes
// first, then the serial: most entries of a response are for other cards of the same issuer.
#[tactic(auto, using(crate::proofs::FormCases::form_cases))]
fn has_form(part: &[u8], head: &[u8], name: &[u8], key: &[u8], serial: &[u8]) -> bool
    requires { (length head.now < 128) × (length name.now < 128) × (length key.now < 128) × (length serial.now < 128) }
    ensures { result ≡ same_of part.now (card_form head.now name.now key.now serial.now) }
{
    let name_at = head.len();
    let key_at = name_at + 2 + name.len();
    let serial_at = key_at + 2 + key.len();
    let end = serial_at + 2 + serial.len();
    part.len() == end
        && is_element(&part[serial_at..end], 0x02, serial)
        && is_element(&part[name_at..key_at], 0x04, name)
        && is_element(&part[key_at..serial_at], 0x04, key)
        && octets::same(&part[..name_at], head)
}

// Whether these octets are the content of a CertID with these fields: SHA-1 without parameters or with
// 05 00, both hashes and the serial. Fields of more than 127 octets are nobody's. The serial's last octet
// comes first: in it the cards of one issuer differ most. Then 05 00, which most responders write.
#[tactic(auto, using(crate::proofs::FieldCases::field_cases))]
pub fn is_for(part: &[u8], name: &[u8], key: &[u8], serial: &[u8]) -> bool
    ensures { result ≡ is_fields name.now key.now serial.now part.now }
{
    let null = b"\x30\x09\x06\x05\x2b\x0e\x03\x02\x1a\x05\x00";
    let plain = b"\x30\x07\x06\x05\x2b\x0e\x03\x02\x1a";
    name.len() <= 127
        && key.len() <= 127
        && serial.len() <= 127
        && last(part) == last(serial)
        && (has_form(part, null, name, key, serial) || has_form(part, plain, name, key, serial))
}

// How many octets of a field of twenty are the serial's.
pub fn serial_size(size: usize) -> usize
    ensures { result ≡ min size 20 }
{
    size.min(20)
}
