//! Integers as they are spelled.

ghost use Rattle.std.specs.Prelude.{◌≡◌, true};
ghost use Rattle.gp_tokens.specs.Numerals.{integer_of, signed};

/// The value of a number, and whether a minus stands before it.
#[derive(Clone, Copy)]
pub struct Numeral {
    pub negative: bool,
    pub value: u128,
}

impl Numeral {
    /// The integer, where it has 128 bits.
    pub fn integer(&self) -> Option<i128>
        ensures { result ≡ integer_of self.now }
    {
        if self.negative {
            negated(self.value)
        } else {
            i128::try_from(self.value).ok()
        }
    }
}

// The integer that is so far below 0.
fn negated(value: u128) -> Option<i128>
    ensures { result ≡ signed true value }
{
    match i128::try_from(value) {
        Ok(positive) => Some(-positive),
        Err(_) if value == 1 << 127 => Some(i128::MIN),
        Err(_) => None,
    }
}
