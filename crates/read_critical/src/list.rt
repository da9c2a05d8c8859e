// A list of extensions: the first that is critical and not understood.
ghost use Rattle.std.specs.Prelude.{◌≤◌, ◌≡◌, [], ◌∷◌, length, drop};
ghost use Rattle.layout.proofs.Format.{extension_list};
ghost use Rattle.read_critical.specs.Strange.{strange_read};

use crate::one;

// The place of the first such extension in s, which from a place on is a list; none if that is not read.
pub(crate) fn strange_from(s: &[u8], from: usize, a: &[u8], b: &[u8]) -> Option<usize>
    requires { from ≤ length s.now }
    ensures { result ≡ strange_read (a.now ∷ b.now ∷ []) s.now (extension_list.dec (drop from s.now)) }
{
    let Ok(()) = read_extensions::read_list(&s[from..]) else {
        return None;
    };
    let mut at = from;
    while at < s.len() {
        let Some(name) = read_oids::name_at(&s[at..]) else {
            return None;
        };
        let first = at + name.start;
        let last = first + name.len;
        if one::is_strange(&s[first..last], &s[last..], a, b) {
            return Some(at);
        }
        at += name.next;
    }
    None
}
