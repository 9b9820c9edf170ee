//! A share of a search.

ghost use Rattle.std.specs.Prelude.{◌≡◌, ◌<◌};

use std::marker::Model;

/// One of several shares of the matches, by its number: each match is in one of them.
#[derive(Drop)]
pub struct Share {
    number: u32,
    count: u32,
}

impl Model for Share {
    ghost use Rattle.std.specs.Prelude.{◌<◌};
    ghost use Rattle.gp_plan.specs.Rules.{Share, share_code};

    ghost Value = { Share };

    ghost coded = { share_code };

    ghost view = { λ a. record { number = a.number; count = a.count } };

    ghost invariant = { λ a. a.number < a.count };
}

impl Share {
    /// The share of this number, of so many.
    pub fn new(number: u32, count: u32) -> Share
        requires { number < count }
        ensures { result ≡ record { number = number; count = count } }
    {
        Share { number, count }
    }

    /// The number, and how many shares there are.
    pub fn parts(&self) -> (u32, u32)
        ensures value { record { number = result.0; count = result.1 } ≡ self.now }
        ensures below { result.0 < result.1 }
    {
        (self.number, self.count)
    }
}
