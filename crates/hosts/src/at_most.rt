// A number that was checked to be at most a bound.
ghost use Rattle.std.specs.Prelude.{◌≡◌, ◌≤◌};
ghost use Rattle.hosts.specs.Checks.{checked_up_to};

use fault::AcceptError;
use std::marker::Model;

#[derive(Clone, Copy, Debug, PartialEq, Eq)]
pub struct AtMost<const MOST: u8> {
    number: u8,
}

// Clauses see the number.
impl<const MOST: u8> Model for AtMost<MOST> {
    ghost use Rattle.std.specs.Prelude.{ℕ, ◌≤◌};

    ghost Value = { ℕ };

    ghost view = { λ a. a.number };

    ghost invariant = { λ a. a.number ≤ MOST };

    ghost inverse = { λ n. record { number = n } };
}

impl<const MOST: u8> AtMost<MOST> {
    // Refuses a number above the bound.
    pub fn new(number: u8) -> Result<AtMost<MOST>, AcceptError>
        ensures { result ≡ checked_up_to MOST number }
    {
        if number > MOST {
            return Err(AcceptError::BadHost);
        }
        Ok(AtMost { number })
    }

    // The number itself.
    pub fn number(self) -> u8
        ensures number { result ≡ self.entry }
        ensures bound { result ≤ MOST }
    {
        self.number
    }
}
