// The content of a serial.
ghost use Rattle.std.specs.Prelude.{◌≡◌};
ghost use Rattle.content.specs.Serial.{serial_ok};

// Whether these octets are the content of a serial.
#[tactic(auto, using(crate::proofs::Cases::serial_empty, crate::proofs::Cases::serial_long, crate::proofs::Cases::serial_high, crate::proofs::Cases::serial_one, crate::proofs::Cases::serial_plain, crate::proofs::Cases::serial_zero))]
pub fn serial_fits(s: &[u8]) -> bool
    ensures { result ≡ serial_ok s.now }
{
    if s.is_empty() || 20 < s.len() || 128 <= s[0] {
        return false;
    }
    if s.len() == 1 || s[0] != 0 {
        return true;
    }
    128 <= s[1]
}
