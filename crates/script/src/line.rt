// Lines: what each one says, or why it cannot be read.
ghost use Rattle.script.specs.declared.line.LineError.TheVariants.{NoMemory, Number};
ghost use Rattle.script.specs.Names.{call_name, later_name, reason};
ghost use Rattle.std.specs.Prelude.{◌≡◌, Some};

use crate::number::NumberError;
use efi_table::layout::Range;
use std::alloc::{AllocError, AllocFailed};
use std::error::Error;
use std::fmt;

// Why a line cannot be read, or cannot stand where it does.
#[derive(Clone, Copy, Debug, PartialEq, Eq)]
pub enum LineError {
    NotText,
    UnknownWord,
    TooFewWords,
    TooManyWords,
    Number(NumberError),
    // A page's byte of 256 or more.
    NoByte,
    TooManyItems,
    // Entry bytes that are no pairs of hexadecimal digits.
    NoHexBytes,
    OutsideCase,
    // A case within a case.
    WithinCase,
    // The script ends and a case does not.
    NoEnd,
    // The case has one of these already.
    Again,
    // There is no map for a layer to stand over.
    NoMap,
    // The layers of a case stand in one order.
    LayerOrder,
    NoMemory,
}

impl From<NumberError> for LineError {
    ghost from_gives = { λ error e. e ≡ Number error };

    fn from(error: NumberError) -> LineError {
        LineError::Number(error)
    }
}

impl From<AllocError> for LineError {
    ghost from_gives = { λ _ e. e ≡ NoMemory };

    fn from(_error: AllocError) -> LineError {
        LineError::NoMemory
    }
}

impl<T: Drop> From<AllocFailed<T>> for LineError {
    ghost from_gives = { λ _ e. e ≡ NoMemory };

    fn from(_error: AllocFailed<T>) -> LineError {
        LineError::NoMemory
    }
}

impl fmt::Display for LineError {
    ghost output = { λ e. Some (reason e) };

    fn fmt<W: fmt::Write>(&self, f: &mut fmt::Formatter<W>) -> fmt::Result {
        match self {
            LineError::NotText => f.write_str("no UTF-8 text"),
            LineError::UnknownWord => f.write_str("an unknown first word"),
            LineError::TooFewWords => f.write_str("too few words"),
            LineError::TooManyWords => f.write_str("too many words"),
            LineError::Number(error) => write!(f, "{error}"),
            LineError::NoByte => f.write_str("a page's byte above 255"),
            LineError::TooManyItems => f.write_str("a list of more than 4194304 items"),
            LineError::NoHexBytes => f.write_str("no pairs of hexadecimal digits"),
            LineError::OutsideCase => f.write_str("outside a case"),
            LineError::WithinCase => f.write_str("the case before has no end"),
            LineError::NoEnd => f.write_str("the last case has no end"),
            LineError::Again => f.write_str("the case has one already"),
            LineError::NoMap => f.write_str("no map below the layer"),
            LineError::LayerOrder => f.write_str("not in the order inject, retry, cap"),
            LineError::NoMemory => f.write_str("no memory for it"),
        }
    }
}

impl Error for LineError {}

// What a line sets up.
#[derive(Debug, Drop)]
pub enum Setting {
    Image(Vec<u64>),
    Bits(Vec<u64>),
    Map(u64, Vec<u8>),
    Inject(Vec<u64>),
    Cap(u64),
    Retry(u64),
    Script(Vec<u64>),
}

// A call that a line makes.
#[derive(Debug, Drop)]
pub enum Call {
    Size(Range),
    Sizes(Vec<Range>),
    Build(Range),
    Find(Vec<u8>),
    Cover,
    Walk(Range),
    FindSet(Range),
    FindZero(Range),
    HasSet(Range),
    SetRange(Range),
    ClearRange(Range),
    CountMarks,
    Capacity,
    Decode(u64),
    // A call of the table that there is not today.
    Later(Later),
}

// The calls of the table that there are not today.
#[derive(Clone, Copy, Debug, PartialEq, Eq)]
pub enum Later {
    Register,
    Done,
    New,
    Accept,
    Claim,
    Settle,
    Restore,
    Count,
    Pending,
    Accepted,
}

// A line of a script.
#[derive(Debug, Drop)]
pub enum Line<'a> {
    // It says nothing: it is blank, or a comment.
    Nothing,
    Case(&'a str),
    End,
    Setting(Setting),
    Call(Call),
}

impl Call {
    // The call's name, as it is written and printed.
    pub fn name(&self) -> &'static str
        ensures { result.now ≡ call_name self.now }
    {
        match self {
            Call::Size(_) => "size",
            Call::Sizes(_) => "sizes",
            Call::Build(_) => "build",
            Call::Find(_) => "find",
            Call::Cover => "cover",
            Call::Walk(_) => "walk",
            Call::FindSet(_) => "fset",
            Call::FindZero(_) => "fzero",
            Call::HasSet(_) => "bany",
            Call::SetRange(_) => "bset",
            Call::ClearRange(_) => "bclear",
            Call::CountMarks => "bcount",
            Call::Capacity => "bcap",
            Call::Decode(_) => "decode",
            Call::Later(later) => later.name(),
        }
    }
}

impl Later {
    // The call's name.
    pub fn name(self) -> &'static str
        ensures { result.now ≡ later_name self }
    {
        match self {
            Later::Register => "reg",
            Later::Done => "done",
            Later::New => "new",
            Later::Accept => "accept",
            Later::Claim => "claim",
            Later::Settle => "settle",
            Later::Restore => "restore",
            Later::Count => "count",
            Later::Pending => "pending",
            Later::Accepted => "accepted",
        }
    }
}
