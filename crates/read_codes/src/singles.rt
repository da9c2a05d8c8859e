// Contents of one octet, and of none.
ghost use Rattle.std.specs.Prelude.{◌≡◌};
ghost use Rattle.codec.specs.Views.{step_of};
ghost use Rattle.layout.specs.Words.{status_ok, reason_ok};
ghost use Rattle.layout.proofs.ElementKinds.{enumerated};
ghost use Rattle.layout.proofs.Format.{critical, good_status, unknown_status, v1};
ghost use Rattle.read_codes.specs.Codes.{code_of, single_at, fixed_at, empty_at};

use crate::Code;
use codec::Step;
use element::Misfit;

// A response status: 0, 1, 2, 3, 5 or 6.
#[tactic(auto, using(crate::proofs::SingleCases::status_cases))]
fn status_fits(value: u8) -> bool
    ensures { result ≡ status_ok value }
{
    value <= 6 && value != 4
}

// A reason: 0 to 10 but not 7.
#[tactic(auto, using(crate::proofs::SingleCases::reason_cases))]
fn reason_fits(value: u8) -> bool
    ensures { result ≡ reason_ok value }
{
    value <= 10 && value != 7
}

// An element with this tag and one octet, whatever it is.
#[tactic(auto, using(crate::proofs::SingleCases::single_cases), unfolding(crate::specs::Codes::single_at))]
fn read_single(s: &[u8], tag: u8) -> Result<Code, Misfit>
    ensures { result ≡ code_of (single_at tag s.now) }
{
    let held = read_content::expect(s, tag)?;
    if held.len != 1 {
        return Err(Misfit { place: 0 });
    }
    Ok(Code {
        value: s[held.start],
        next: held.start + 1,
    })
}

// An element with this tag and this one octet.
#[tactic(auto, using(crate::proofs::OctetCases::fixed_cases), unfolding(crate::specs::Codes::fixed_at))]
fn read_fixed(s: &[u8], tag: u8, octet: u8) -> Step
    ensures { result ≡ step_of (fixed_at tag octet s.now) }
{
    let code = read_single(s, tag)?;
    if code.value != octet {
        return Err(Misfit { place: 0 });
    }
    Ok(code.next)
}

// An element with this tag and no octet.
#[tactic(auto, using(crate::proofs::SingleCases::empty_cases), unfolding(crate::specs::Codes::empty_at))]
fn read_empty(s: &[u8], tag: u8) -> Step
    ensures { result ≡ step_of (empty_at tag s.now) }
{
    let held = read_content::expect(s, tag)?;
    if held.len != 0 {
        return Err(Misfit { place: 0 });
    }
    Ok(held.start)
}

// The status of a response.
#[tactic(auto, using(crate::proofs::OctetCases::value_cases))]
pub fn read_code(s: &[u8]) -> Result<Code, Misfit>
    ensures { result ≡ code_of ((enumerated status_ok).dec s.now) }
{
    let code = read_single(s, 0x0a)?;
    if status_fits(code.value) {
        return Ok(code);
    }
    Err(Misfit { place: 0 })
}

// The reason of a revocation.
#[tactic(auto, using(crate::proofs::OctetCases::taken_cases))]
pub fn read_reason_code(s: &[u8]) -> Step
    ensures { result ≡ step_of ((enumerated reason_ok).dec s.now) }
{
    let code = read_single(s, 0x0a)?;
    if reason_fits(code.value) {
        return Ok(code.next);
    }
    Err(Misfit { place: 0 })
}

// TRUE: 01 01 FF.
#[tactic(auto, unfolding(layout::proofs::Format::critical, crate::specs::Codes::fixed_at))]
pub fn read_true(s: &[u8]) -> Step
    ensures { result ≡ step_of (critical.dec s.now) }
{
    read_fixed(s, 0x01, 0xff)
}

// The version v1, which is 0: 02 01 00.
#[tactic(auto, unfolding(layout::proofs::Format::v1, crate::specs::Codes::fixed_at))]
pub fn read_v1(s: &[u8]) -> Step
    ensures { result ≡ step_of (v1.dec s.now) }
{
    read_fixed(s, 0x02, 0x00)
}

// Good: 80 00.
#[tactic(auto, unfolding(layout::proofs::Format::good_status, crate::specs::Codes::empty_at))]
pub fn read_good(s: &[u8]) -> Step
    ensures { result ≡ step_of (good_status.dec s.now) }
{
    read_empty(s, 0x80)
}

// Unknown: 82 00.
#[tactic(auto, unfolding(layout::proofs::Format::unknown_status, crate::specs::Codes::empty_at))]
pub fn read_unknown(s: &[u8]) -> Step
    ensures { result ≡ step_of (unknown_status.dec s.now) }
{
    read_empty(s, 0x82)
}
