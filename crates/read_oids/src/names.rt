// The OIDs of a list of extensions, looked at where they stand.
ghost use Rattle.std.specs.Prelude.{◌≡◌, []};
ghost use Rattle.codec.specs.Keys.{new_to};
ghost use Rattle.read_oids.specs.Seen.{name_at, oids_of};

use crate::Name;

// The OID of the extension at the head of s, by the headers alone.
#[tactic(auto, using(read_content::specs::ExpectLaws::content_sum, read_content::specs::ExpectLaws::content_end, crate::proofs::NameCases::name_wrong, crate::proofs::NameCases::name_first))]
pub fn name_at(s: &[u8]) -> Option<Name>
    ensures { result ≡ name_at s.now }
{
    let Ok(held) = read_content::expect(s, 0x30) else {
        return None;
    };
    let next = held.start + held.len;
    let Ok(oid) = read_content::expect(&s[held.start..next], 0x06) else {
        return None;
    };
    let first = held.start + oid.start;
    Some(Name {
        start: first,
        len: oid.len,
        next,
    })
}

// Whether an OID is none of those of the first count extensions of s.
#[tactic(auto, using(crate::specs::NameLaws::place_first, crate::specs::NameLaws::place_last, crate::specs::NameLaws::place_next_lem, crate::proofs::NameCases::look_start, crate::proofs::NameCases::look_next))]
pub fn is_new(s: &[u8], count: usize, oid: &[u8]) -> bool
    ensures { result ≡ new_to (oids_of count [] s.now) oid.now }
{
    let mut at: usize = 0;
    for _ in 0..count {
        let Some(name) = name_at(&s[at..]) else {
            return true;
        };
        let first = at + name.start;
        let last = first + name.len;
        if octets::same(&s[first..last], oid) {
            return false;
        }
        at += name.next;
    }
    true
}
