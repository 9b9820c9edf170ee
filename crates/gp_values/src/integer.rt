//! Integers in two halves.

ghost use Rattle.std.specs.Prelude.{◌≡◌};

use std::marker::Model;

const HALF: u128 = 1 << 64;

/// An integer of 128 bits, in two halves: so an atom takes 24 bytes, where an integer that begins at a multiple of sixteen
/// would make it one of 32. Contracts see the integer.
#[derive(Drop)]
pub struct Integer {
    high: u64,
    low: u64,
}

impl Model for Integer {
    ghost use Rattle.std.specs.Prelude.{ℤ, ◌+◌, ◌*◌, ◌^◌};
    ghost use Rattle.std.specs.Int.{w128, cast_signed};

    ghost Value = { ℤ };

    ghost view = { λ a. cast_signed w128 (a.high * 2 ^ 64 + a.low) };
}

impl Integer {
    /// This integer.
    pub fn new(value: i128) -> Integer
        ensures { result ≡ value }
    {
        let bits = value.cast_unsigned();
        Integer {
            high: (bits / HALF) as u64,
            low: (bits % HALF) as u64,
        }
    }

    /// The integer as a number.
    pub fn get(&self) -> i128
        ensures { result ≡ self.now }
    {
        (u128::from(self.high) * HALF + u128::from(self.low)).cast_signed()
    }
}
