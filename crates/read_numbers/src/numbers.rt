// Contents that stand for numbers.
ghost use Rattle.std.specs.Prelude.{◌≡◌};
ghost use Rattle.codec.specs.Views.{step_of};
ghost use Rattle.layout.proofs.ElementKinds.{serial, time};

use codec::Step;
use element::Misfit;

// A serial.
#[tactic(auto, using(crate::proofs::NumberCases::serial_cases), unfolding(layout::proofs::ElementKinds::serial))]
pub fn read_serial(s: &[u8]) -> Step
    ensures { result ≡ step_of (serial.dec s.now) }
{
    let held = read_content::expect(s, 0x02)?;
    let end = held.start + held.len;
    if content::serial_fits(&s[held.start..end]) {
        return Ok(end);
    }
    Err(Misfit { place: 0 })
}

// A time.
#[tactic(auto, using(crate::proofs::TimeCases::time_cases), unfolding(layout::proofs::ElementKinds::time))]
pub fn judge_time(s: &[u8]) -> Step
    ensures { result ≡ step_of (time.dec s.now) }
{
    let held = read_content::expect(s, 0x18)?;
    let after = held.start + held.len;
    if calendar::time_fits(&s[held.start..after]) {
        return Ok(after);
    }
    Err(Misfit { place: 0 })
}
