// The numbers in a table's header.
ghost use Rattle.std.specs.Prelude.{◌≡◌, ◌%◌, ◌^◌, ◌<◌, true, Some, None, if◌then◌else◌, nat_le};
ghost use Rattle.std.specs.Int.{is_power_of_two};
ghost use Rattle.efi_table.specs.Shapes.{covered_end, shape};

pub mod build;
pub mod fields;
pub mod units;
pub mod words;

use crate::layout::BYTE_BITS;
use std::marker::Model;

// The version of every table.
const VERSION: u32 = 1;

// A header of version 1.
#[derive(Clone, Copy, Debug, PartialEq, Eq)]
pub struct Header {
    // the unit size in bytes
    unit: u32,
    // the address of the first unit
    base: u64,
    // the length of the bitmap in bytes
    length: u64,
}

impl Model for Header {
    ghost use Rattle.efi_table.specs.Shapes.{Shape, shape, IsHeader};

    ghost Value = { Shape };

    ghost view = { λ h. shape h.unit h.base h.length };

    ghost invariant = { λ h. IsHeader (shape h.unit h.base h.length) };

    ghost inverse = { λ s. record { unit = s.unit; base = s.base; length = s.length } };
}

impl Header {
    // The header with these numbers; none if its covered end is 2^64 or more.
    fn new(unit: u32, base: u64, length: u64) -> Option<Header>
        requires power { is_power_of_two unit ≡ true }
        requires whole { length % 8 ≡ 0 }
        requires some { 0 < length }
        ensures { result ≡ (if nat_le (2 ^ 64) (covered_end (shape unit base length)) then None else Some (shape unit base length)) }
    {
        let size = length.checked_mul(BYTE_BITS * u64::from(unit))?;
        base.checked_add(size)?;
        Some(Header { unit, base, length })
    }
}
