// Why a call refuses, and where: the one error and the one fault of every layer.
#![tactic(auto)]

ghost use Rattle.fault.specs.declared.AcceptError.TheVariants.{TdCall};
ghost use Rattle.fault.specs.Refusals.{ToldWhole, counts_line, layer_name, name_of, number, refusal_line, request_line, text_of, told};
ghost use Rattle.std.specs.Fmt.{DisplaysOnOk};
ghost use Rattle.std.specs.Prelude.{◌≡◌, Some};

use std::error::Error;
use std::fmt;
use tdcall::TdCallError;

// The refusals, by their numbers from 1 on.
#[derive(Clone, Copy, Debug, PartialEq, Eq)]
pub enum AcceptError {
    // The start or the end of a walk is no multiple of 4096.
    InvalidAlignment,
    // A coverage, a list or a listed range is empty, a list is too long, or an image is too short.
    OutOfBounds,
    // A unit that was to be marked is marked already.
    Overlap,
    // A coverage ends too high.
    ArithmeticOverflow,
    // The host's reply fails a walk.
    TdCall(TdCallError),
    // The image is not that of the table.
    WrongImage,
    // The entries are no whole number of entries.
    BadEntries,
    // No entry is that of a table, or its pointer is null.
    NoTable,
    // The table's version is not 1.
    BadVersion,
    // The table's unit size is no power of two.
    BadUnit,
    // The bitmap's length, or the pointer to the table, is not possible.
    BadBitmap,
    // The table's covered end is 2^64 or more.
    BadCoverage,
    // The numbers of a host are not possible.
    BadHost,
}

// What found the fault.
#[derive(Clone, Copy, Debug, PartialEq, Eq)]
pub enum Layer {
    Host,
    Walk,
    Table,
}

// A refusal with every place: a place that does not apply is 0.
#[derive(Clone, Copy, Debug, PartialEq, Eq)]
pub struct Fault {
    pub error: AcceptError,
    pub layer: Layer,
    // the host's last reply
    pub status: u64,
    // the level and the address of the request that it answers
    pub level: u8,
    pub address: u64,
    // the requests that the call made
    pub count: u64,
    // the part of registering a range in which the walk failed, from 1
    pub part: u8,
    // the unit of the table that the fault is about: the first of the run in accepting, the marked one in an overlap
    pub unit: u64,
}

// The refusal by a host's reply.
impl From<TdCallError> for AcceptError {
    ghost from_gives = { λ e r. r ≡ TdCall e };

    fn from(reply: TdCallError) -> AcceptError {
        AcceptError::TdCall(reply)
    }
}

impl AcceptError {
    // The number by which a refusal is known.
    pub fn number(self) -> u8
        ensures { result ≡ number self }
    {
        match self {
            AcceptError::InvalidAlignment => 1,
            AcceptError::OutOfBounds => 2,
            AcceptError::Overlap => 3,
            AcceptError::ArithmeticOverflow => 4,
            AcceptError::TdCall(_) => 5,
            AcceptError::WrongImage => 6,
            AcceptError::BadEntries => 7,
            AcceptError::NoTable => 8,
            AcceptError::BadVersion => 9,
            AcceptError::BadUnit => 10,
            AcceptError::BadBitmap => 11,
            AcceptError::BadCoverage => 12,
            AcceptError::BadHost => 13,
        }
    }

    // The refusal's name, as it is printed. A reply that fails a walk is known by the name of its error.
    pub fn name(self) -> &'static str
        ensures { result.now ≡ name_of self }
    {
        match self {
            AcceptError::InvalidAlignment => "InvalidAlignment",
            AcceptError::OutOfBounds => "OutOfBounds",
            AcceptError::Overlap => "Overlap",
            AcceptError::ArithmeticOverflow => "ArithmeticOverflow",
            AcceptError::TdCall(error) => error.name(),
            AcceptError::WrongImage => "WrongImage",
            AcceptError::BadEntries => "BadEntries",
            AcceptError::NoTable => "NoTable",
            AcceptError::BadVersion => "BadVersion",
            AcceptError::BadUnit => "BadUnit",
            AcceptError::BadBitmap => "BadBitmap",
            AcceptError::BadCoverage => "BadCoverage",
            AcceptError::BadHost => "BadHost",
        }
    }
}

// A refusal is printed by its name.
impl fmt::Display for AcceptError {
    ghost output = { λ e. Some (name_of e) };

    ghost styled_output = { λ e _. Some (name_of e) };

    fn fmt<W: fmt::Write>(&self, f: &mut fmt::Formatter<W>) -> fmt::Result {
        f.write_str(self.name())
    }
}

impl Error for AcceptError {}

// A layer is printed by its name.
impl fmt::Display for Layer {
    ghost output = { λ l. Some (layer_name l) };

    ghost styled_output = { λ l _. Some (layer_name l) };

    fn fmt<W: fmt::Write>(&self, f: &mut fmt::Formatter<W>) -> fmt::Result {
        f.write_str(match self {
            Layer::Host => "host",
            Layer::Walk => "walk",
            Layer::Table => "table",
        })
    }
}

impl Fault {
    // The number of the fault's refusal. Its places by plain numbers tell the whole fault.
    pub fn number(&self) -> u8
        ensures number { result ≡ (told self.now).refusal }
        ensures whole { ToldWhole }
    {
        self.error.number()
    }

    // The lines of a fault as it is printed.
    fn write_refusal<W: fmt::Write>(&self, f: &mut fmt::Formatter<W>) -> fmt::Result
        ensures { DisplaysOnOk W.write_str_gives f.old result (Some (refusal_line self.now)) f.new }
    {
        writeln!(f, "refused by {}, {}", self.number(), self.error)
    }

    fn write_request<W: fmt::Write>(&self, f: &mut fmt::Formatter<W>) -> fmt::Result
        ensures { DisplaysOnOk W.write_str_gives f.old result (Some (request_line self.now)) f.new }
    {
        write!(f, "  layer {}, status 0x{:016x}", self.layer, self.status)?;
        writeln!(f, ", level {}, address 0x{:010x}", self.level, self.address)
    }

    fn write_counts<W: fmt::Write>(&self, f: &mut fmt::Formatter<W>) -> fmt::Result
        ensures { DisplaysOnOk W.write_str_gives f.old result (Some (counts_line self.now)) f.new }
    {
        write!(
            f,
            "  count {}, part {}, unit {}",
            self.count, self.part, self.unit
        )
    }
}

// A fault is printed with every place, on three lines.
impl fmt::Display for Fault {
    ghost output = { λ f. Some (text_of f) };

    fn fmt<W: fmt::Write>(&self, f: &mut fmt::Formatter<W>) -> fmt::Result {
        self.write_refusal(f)?;
        self.write_request(f)?;
        self.write_counts(f)
    }
}

impl Error for Fault {}
