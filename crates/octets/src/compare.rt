// Octets compared.
ghost use Rattle.std.specs.Prelude.{◌≡◌, ◌+◌, ◌≤◌, length, take, drop};
ghost use Rattle.octets.specs.Number.{low_first};
ghost use Rattle.octets.specs.Same.{same_of};

use crate::weights;

// The number of the eight octets at a place, the low octet first.
fn eight(s: &[u8], at: usize) -> u64
    requires { at + 8 ≤ length s.now }
    ensures { result ≡ low_first (take 8 (drop at s.now)) }
{
    weights::weigh(
        s[at],
        s[at + 1],
        s[at + 2],
        s[at + 3],
        s[at + 4],
        s[at + 5],
        s[at + 6],
        s[at + 7],
    )
}

// The same one by one: of two lists that are as long.
#[tactic(auto, using(crate::proofs::Turns::same_stop, crate::proofs::Turns::same_next, crate::proofs::Turns::same_end))]
fn same_few(a: &[u8], b: &[u8]) -> bool
    requires { length a.now ≡ length b.now }
    ensures { result ≡ same_of a.now b.now }
{
    for i in 0..a.len() {
        if a[i] != b[i] {
            return false;
        }
    }
    true
}

// Whether two lists are as long and equal one by one: by eights, the last of which may begin in the one
// before it.
pub fn same(a: &[u8], b: &[u8]) -> bool
    ensures { result ≡ same_of a.now b.now }
{
    if a.len() != b.len() {
        return false;
    }
    if a.len() < 8 {
        return same_few(a, b);
    }
    let last = a.len() - 8;
    let mut i: usize = 0;
    while i < last {
        if eight(a, i) != eight(b, i) {
            return false;
        }
        i += 8;
    }
    eight(a, last) == eight(b, last)
}

// The same of two hashes of twenty octets, by value.
pub fn same20(a: [u8; 20], b: [u8; 20]) -> bool
    ensures { result ≡ same_of a b }
{
    same(&a, &b)
}
