// The status that a TDCALL answers, and the error that it names.
#![tactic(auto)]

ghost use Rattle.std.specs.Prelude.{◌≡◌, Some};
ghost use Rattle.tdcall.specs.Statuses.{Named, decoded, encoded, named, name_of, number, status_of};

use std::error::Error;
use std::fmt;

// The errors, each with its class.
#[derive(Clone, Copy, Debug, PartialEq, Eq)]
pub enum TdCallError {
    // There is no valid #VE information.
    TdxNoValidVeInfo = 0xC000_0704,
    // An operand is invalid.
    TdxOperandInvalid = 0xC000_0100,
    // The operand is busy, as one locked in exclusive mode.
    TdxOperandBusy = 0x8000_0200,
    // The page is accepted already.
    TdxPageAlreadyAccepted = 0x0000_0B0A,
    // The page is mapped at another size than the one asked for.
    TdxPageSizeMismatch = 0xC000_0B0B,
    // The field identifier is incorrect.
    TdxMetadataFieldIdIncorrect = 0xC000_0C00,
    // The field can only be read.
    TdxMetadataFieldNotWritable = 0xC000_0C01,
    // The field cannot be read.
    TdxMetadataFieldNotReadable = 0xC000_0C02,
    // The field's value is not valid.
    TdxMetadataFieldValueNotValid = 0xC000_0C03,
    // The TD's operation state does not allow the call.
    TdxOpStateIncorrect = 0xC000_0608,
    // The address is out of range.
    TdxOperandAddrRangeError = 0xC000_0101,
    // The page's metadata do not allow the call.
    TdxPageMetadataIncorrect = 0xC000_0300,
    // The service TD's hash is not the bound one.
    TdxServtdInfoHashMismatch = 0xC000_0D03,
    // The service TD is not bound.
    TdxServtdNotBound = 0xC000_0D05,
    // The service TD's UUID is not the bound one.
    TdxServtdUuidMismatch = 0xC000_0D04,
    // The target TD's UUID is not the one asked for.
    TdxTargetUuidMismatch = 0xC000_0D07,
    // The target TD's UUID is not the one asked for, and was so before its migration.
    TdxTargetUuidUpdated = 0xC000_0D08,
    // The TD is in a fatal state.
    TdxTdFatal = 0xE000_0604,
    // The TD's keys are not configured on the hardware.
    TdxTdKeysNotConfigured = 0x8000_0810,
    // The TDCS pages are not allocated.
    TdxTdcsNotAllocated = 0xC000_0606,
    // Any other class: this one stands for every class without a name.
    Other = 0xFFFF_FFFF,
}

// The error that a class, the upper 32 bits of a status, names.
impl From<u64> for TdCallError {
    ghost from_gives = { λ c r. r ≡ named c };

    fn from(class: u64) -> TdCallError {
        match class {
            0x0000_0B0A => TdCallError::TdxPageAlreadyAccepted,
            0x8000_0200 => TdCallError::TdxOperandBusy,
            0x8000_0810 => TdCallError::TdxTdKeysNotConfigured,
            0xC000_0100 => TdCallError::TdxOperandInvalid,
            0xC000_0101 => TdCallError::TdxOperandAddrRangeError,
            0xC000_0300 => TdCallError::TdxPageMetadataIncorrect,
            0xC000_0606 => TdCallError::TdxTdcsNotAllocated,
            0xC000_0608 => TdCallError::TdxOpStateIncorrect,
            0xC000_0704 => TdCallError::TdxNoValidVeInfo,
            0xC000_0B0B => TdCallError::TdxPageSizeMismatch,
            0xC000_0C00 => TdCallError::TdxMetadataFieldIdIncorrect,
            0xC000_0C01 => TdCallError::TdxMetadataFieldNotWritable,
            0xC000_0C02 => TdCallError::TdxMetadataFieldNotReadable,
            0xC000_0C03 => TdCallError::TdxMetadataFieldValueNotValid,
            0xC000_0D03 => TdCallError::TdxServtdInfoHashMismatch,
            0xC000_0D04 => TdCallError::TdxServtdUuidMismatch,
            0xC000_0D05 => TdCallError::TdxServtdNotBound,
            0xC000_0D07 => TdCallError::TdxTargetUuidMismatch,
            0xC000_0D08 => TdCallError::TdxTargetUuidUpdated,
            0xE000_0604 => TdCallError::TdxTdFatal,
            _ => TdCallError::Other,
        }
    }
}

impl TdCallError {
    // The class that names the error.
    pub fn class(self) -> u64
        ensures { result ≡ number self }
    {
        self as u64
    }

    // The status that names the error, with a lower half of zero.
    pub fn status(self) -> u64
        ensures { result ≡ status_of self }
    {
        self.class() << 32
    }

    // The error's name, as it is printed.
    pub fn name(self) -> &'static str
        ensures { result.now ≡ name_of self }
    {
        match self {
            TdCallError::TdxNoValidVeInfo => "TdxNoValidVeInfo",
            TdCallError::TdxOperandInvalid => "TdxOperandInvalid",
            TdCallError::TdxOperandBusy => "TdxOperandBusy",
            TdCallError::TdxPageAlreadyAccepted => "TdxPageAlreadyAccepted",
            TdCallError::TdxPageSizeMismatch => "TdxPageSizeMismatch",
            TdCallError::TdxMetadataFieldIdIncorrect => "TdxMetadataFieldIdIncorrect",
            TdCallError::TdxMetadataFieldNotWritable => "TdxMetadataFieldNotWritable",
            TdCallError::TdxMetadataFieldNotReadable => "TdxMetadataFieldNotReadable",
            TdCallError::TdxMetadataFieldValueNotValid => "TdxMetadataFieldValueNotValid",
            TdCallError::TdxOpStateIncorrect => "TdxOpStateIncorrect",
            TdCallError::TdxOperandAddrRangeError => "TdxOperandAddrRangeError",
            TdCallError::TdxPageMetadataIncorrect => "TdxPageMetadataIncorrect",
            TdCallError::TdxServtdInfoHashMismatch => "TdxServtdInfoHashMismatch",
            TdCallError::TdxServtdNotBound => "TdxServtdNotBound",
            TdCallError::TdxServtdUuidMismatch => "TdxServtdUuidMismatch",
            TdCallError::TdxTargetUuidMismatch => "TdxTargetUuidMismatch",
            TdCallError::TdxTargetUuidUpdated => "TdxTargetUuidUpdated",
            TdCallError::TdxTdFatal => "TdxTdFatal",
            TdCallError::TdxTdKeysNotConfigured => "TdxTdKeysNotConfigured",
            TdCallError::TdxTdcsNotAllocated => "TdxTdcsNotAllocated",
            TdCallError::Other => "Other",
        }
    }
}

// An error is printed by its name.
impl fmt::Display for TdCallError {
    ghost output = { λ e. Some (name_of e) };

    ghost styled_output = { λ e _. Some (name_of e) };

    fn fmt<W: fmt::Write>(&self, f: &mut fmt::Formatter<W>) -> fmt::Result {
        f.write_str(self.name())
    }
}

impl Error for TdCallError {}

// What a whole status says: zero is success, and the upper 32 bits of any other name an error.
pub fn decode(status: u64) -> Result<(), TdCallError>
    ensures { result ≡ decoded status }
{
    if status == 0 {
        return Ok(());
    }
    Err((status >> 32).into())
}

// How errors, classes and statuses go together, as a law of the definitions that the contracts above cite.
pub fn laws()
    ensures { Named }
{}

// The status that is decoded to an answer, with a lower half of zero.
pub fn encode(answer: Result<(), TdCallError>) -> u64
    ensures status { result ≡ encoded answer }
    ensures back { decoded result ≡ answer }
{
    match answer {
        Ok(()) => 0,
        Err(error) => error.status(),
    }
}
