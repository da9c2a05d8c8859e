// An answer made of answers.
ghost use Rattle.std.specs.Prelude.{◌≡◌};
ghost use Rattle.codec.specs.Starts.{starts_with};
ghost use Rattle.read_sequence.specs.Judged.{place_within, filled_by, closed_by, after_by};

use codec::{Fit, Step};
use element::Misfit;

// Whether s begins with this octet.
#[tactic(auto, using(crate::proofs::JudgedCases::first_cases))]
pub fn starts_with(s: &[u8], octet: u8) -> bool
    ensures { result ≡ starts_with octet s.now }
{
    s.len() != 0 && s[0] == octet
}

// The place p octets after start, and no further than end.
#[tactic(auto, using(crate::proofs::JudgedCases::place_least))]
fn place_in(start: usize, end: usize, p: usize) -> usize
    ensures { result ≡ place_within start end p }
{
    start.saturating_add(p).min(end)
}

// A part of size octets, by the element at its head: it fills the part.
#[tactic(auto, using(crate::proofs::JudgedCases::filled_cases))]
pub fn filled(step: Step, size: usize) -> Fit
    ensures { result ≡ filled_by size step }
{
    let n = step?;
    if n == size {
        return Ok(());
    }
    Err(Misfit { place: n })
}

// An element, by its content from start to end.
#[tactic(auto, using(crate::proofs::JudgedCases::closed_cases))]
pub fn closed(start: usize, end: usize, fit: Fit) -> Step
    ensures { result ≡ closed_by start end fit }
{
    after(start, end, fit)?;
    Ok(end)
}

// A part of size octets, by what follows its first n.
#[tactic(auto, using(crate::proofs::JudgedCases::after_cases))]
pub fn after(n: usize, size: usize, fit: Fit) -> Fit
    ensures { result ≡ after_by n size fit }
{
    fit.map_err(|wrong| Misfit {
        place: place_in(n, size, wrong.place),
    })
}
