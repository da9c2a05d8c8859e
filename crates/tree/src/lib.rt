// Free elements: any element at the head of a part, and the run that an element holds.
//
// No function here has a requirement. A wrong place is counted from the start of the part that was
// lent. An element beyond the depth is refused at its first octet.
#![tactic(auto)]

mod heads; // short headers

ghost use Rattle.std.specs.Prelude.{◌≡◌};
ghost use Rattle.element.specs.Header.{header_of};
ghost use Rattle.codec.proofs.Any.{all};
ghost use Rattle.codec.proofs.TreeRead.{tree};
ghost use Rattle.codec.proofs.TreeTagged.{tree_tagged};
ghost use Rattle.codec.specs.Views.{step_of, fit_of};
ghost use Rattle.tree.specs.Light.{unwanted_of};

use codec::{Fit, Step};
use element::{Header, Misfit};

// Any element at the head of s, at most depth deep: its content is a run where the constructed bit
// is set, else octets that are not examined.
#[cycle(read_run_read_tree)]
#[tactic(auto, using(crate::proofs::TreeCases::tree_cases))]
pub fn read_tree(s: &[u8], depth: usize) -> Step
    ensures { result ≡ step_of ((tree depth).dec s.now) }
{
    if depth == 0 {
        return Err(Misfit { place: 0 });
    }
    let Header { tag, start, len } = heads::header_at(s)?;
    let end = start + len;
    let kind = element::tag_of(tag);
    if kind.constructed {
        if let Err(wrong) = read_run(&s[start..end], depth - 1) {
            let place = start + wrong.place;
            return Err(Misfit { place });
        }
    }
    Ok(end)
}

// Elements up to the end of s, each at most depth deep. Those that hold nothing to look at are stepped
// over.
#[cycle(read_run_read_tree)]
#[tactic(auto, using(crate::proofs::TreeCases::tree_falls))]
pub fn read_run(s: &[u8], depth: usize) -> Fit
    ensures { result ≡ fit_of ((all (tree depth)).dec s.now) }
{
    let mut at: usize = 0;
    while at < s.len() {
        if let Some(size) = heads::light(&s[at..], depth) {
            at += size;
        } else {
            match read_tree(&s[at..], depth) {
                Ok(size) => at += size,
                Err(wrong) => {
                    let place = at + wrong.place;
                    return Err(Misfit { place });
                }
            }
        }
    }
    Ok(())
}

// An element that is refused whatever it holds: at the place where its header is wrong, else at its
// first octet.
#[tactic(auto, using(crate::proofs::TreeCases::unwanted_cases))]
fn unwanted(s: &[u8]) -> Step
    ensures { result ≡ unwanted_of (header_of s.now) }
{
    element::read_header(s)?;
    Err(Misfit { place: 0 })
}

// An element with this tag at the head of s, at most depth deep.
#[tactic(auto, using(crate::proofs::TreeCases::wanted_cases))]
pub fn read_tree_tagged(s: &[u8], tag: u8, depth: usize) -> Step
    ensures { result ≡ step_of ((tree_tagged tag depth).dec s.now) }
{
    if depth == 0 || s.len() == 0 || s[0] != tag {
        return unwanted(s);
    }
    read_tree(s, depth)
}
