// Numbers: decimal digits, or hexadecimal ones behind `0x`.
ghost use Rattle.script.specs.Numbers.{IsNumber, IsWritten, ReadsBack, number_of};
ghost use Rattle.script.specs.Names.{number_reason};
ghost use Rattle.std.specs.Prelude.{Some, ◌≡◌, ◌≤◌, ◌<◌, ◌^◌, ◌↔◌};
ghost use Rattle.std.specs.Result.{OkIff};
ghost use Rattle.std.specs.Str.Parse.{IsNumeral, digits_value, error_kind};

use std::error::Error;
use std::fmt;
use std::num::{IntErrorKind, ParseIntError};

// Why a word is no number.
#[derive(Clone, Copy, Debug, PartialEq, Eq)]
pub enum NumberError {
    // It has no digit, or something that is none.
    NoNumber,
    // Its value is 2^64 or more.
    TooLarge,
}

impl fmt::Display for NumberError {
    ghost output = { λ e. Some (number_reason e) };

    fn fmt<W: fmt::Write>(&self, f: &mut fmt::Formatter<W>) -> fmt::Result {
        f.write_str(match self {
            NumberError::NoNumber => "no number",
            NumberError::TooLarge => "a number of 2^64 or more",
        })
    }
}

impl Error for NumberError {}

// Why digits are no number of 64 bits.
fn explained(error: &ParseIntError) -> NumberError
    ensures { (result ≡ NumberError.TooLarge) ↔ (error_kind error.now ≡ IntErrorKind.PosOverflow) }
{
    match error.kind() {
        IntErrorKind::PosOverflow => NumberError::TooLarge,
        _ => NumberError::NoNumber,
    }
}

// The number that digits of a base write.
fn numeral(digits: &str, base: u32) -> Result<u64, NumberError>
    requires { (2 ≤ base) × (base ≤ 16) }
    ensures value { OkIff result (IsNumeral base digits.now × (digits_value base digits.now < 2 ^ 64)) (digits_value base digits.now) }
    ensures no_number { result ≡ Err NumberError.NoNumber → ¬ (IsNumeral base digits.now) }
{
    if let [b'+', ..] = digits.as_bytes() {
        return Err(NumberError::NoNumber);
    }
    match u64::from_str_radix(digits, base) {
        Ok(value) => Ok(value),
        Err(error) => Err(explained(&error)),
    }
}

// The number that a word writes. What is printed in hexadecimal is read back.
#[tactic(auto, using(crate::proofs::Numbers::reads_back))]
pub fn number(word: &str) -> Result<u64, NumberError>
    ensures value { OkIff result (IsNumber word.now) (number_of word.now) }
    ensures no_number { result ≡ Err NumberError.NoNumber → ¬ (IsWritten word.now) }
    ensures back { ReadsBack }
{
    match word.strip_prefix("0x") {
        Some(digits) => numeral(digits, 16),
        None => numeral(word, 10),
    }
}
