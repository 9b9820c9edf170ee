//! The values of digits.

ghost use Rattle.std.specs.Prelude.{◌≡◌};
ghost use Rattle.gp_tokens.specs.Numbers.{checked_number};

/// The greatest value of a number.
pub const LIMIT: u128 = 1 << 127;

// Up to this value there is room for one digit more, which no division has to tell.
const ROOMY: u128 = 1 << 120;

/// The value of the digits, where it is no more than the limit.
pub fn number(digits: &[u8]) -> Option<u128>
    ensures { result ≡ checked_number digits.now }
{
    let mut value = 0u128;
    for byte in digits {
        let digit = byte.saturating_sub(b'0') as u128;
        if value > ROOMY && (LIMIT - digit) / 10 < value {
            return None;
        }
        value = value * 10 + digit;
    }
    Some(value)
}
