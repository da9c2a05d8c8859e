// The two elements around a list of extensions: each fills what is left of the part.
ghost use Rattle.std.specs.Prelude.{◌≤◌, ◌≡◌, [], ◌∷◌, length};
ghost use Rattle.read_critical.specs.Strange.{strange_of, HeldFrom};

use crate::list;

// Where the content starts of the element at a place, which has this tag and ends with s. The end of s
// if there is no such element: nothing is found there.
#[tactic(auto, using(crate::proofs::StrangeAround::inside_wrong, crate::proofs::StrangeAround::inside_first, crate::proofs::StrangeAround::inside_last, crate::proofs::StrangeAround::inside_more, crate::proofs::StrangeAround::inside_there))]
fn content_at(s: &[u8], at: usize, tag: u8) -> usize
    requires { at ≤ length s.now }
    ensures { HeldFrom s.now at tag result }
{
    let Ok(held) = read_content::expect(&s[at..], tag) else {
        return s.len();
    };
    let first = at + held.start;
    let end = first + held.len;
    if end != s.len() {
        return s.len();
    }
    first
}

// The place of the first critical extension in s whose OID is neither a nor b, where s is the A1 of
// extensions and nothing more.
pub fn strange_place(s: &[u8], a: &[u8], b: &[u8]) -> Option<usize>
    ensures { result ≡ strange_of (a.now ∷ b.now ∷ []) s.now }
{
    let held = content_at(s, 0, 0xa1);
    let from = content_at(s, held, 0x30);
    list::strange_from(s, from, a, b)
}
