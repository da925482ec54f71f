// What calls answer, as it is printed.
ghost use Rattle.script.specs.Answers.{answer_text, fault_of, places_text, refusal_text};
ghost use Rattle.script.specs.Calls.{table_fault};
ghost use Rattle.std.specs.Prelude.{◌≡◌, Some, None};

use efi_table::layout::Range;
use fault::{AcceptError, Fault, Layer};
use std::fmt;
use tdcall::TdCallError;

// What a call answers.
#[derive(Clone, Copy, Debug, PartialEq, Eq)]
pub enum Answer {
    Done,
    Bytes(usize),
    Found,
    Covers(Range),
    Unit(Option<u64>),
    Holds(bool),
    Number(u64),
    Name(TdCallError),
    // The case is not in a state for the call.
    NotNow,
    Refused(Fault),
    // The table is not found.
    NotFound(Fault),
}

impl fmt::Display for Answer {
    ghost output = { λ a. Some (answer_text a) };

    fn fmt<W: fmt::Write>(&self, f: &mut fmt::Formatter<W>) -> fmt::Result {
        match self {
            Answer::Done => f.write_str("ok"),
            Answer::Bytes(bytes) => write!(f, "ok {bytes}"),
            Answer::Found => f.write_str("found"),
            Answer::Covers(range) => write!(f, "0x{:x} 0x{:x}", range.start, range.end),
            Answer::Unit(None) => f.write_str("none"),
            Answer::Unit(Some(unit)) => write!(f, "some 0x{unit:x}"),
            Answer::Holds(holds) => write!(f, "{holds}"),
            Answer::Number(number) => write!(f, "{number}"),
            Answer::Name(error) => write!(f, "{error}"),
            Answer::NotNow => f.write_str("not now"),
            Answer::Refused(fault) => write!(f, "err {}", Refusal(fault.error)),
            Answer::NotFound(fault) => write!(f, "refuse {}", fault.number()),
        }
    }
}

// A refusal, printed by its number, and by the name of the reply's error where a reply is the reason.
#[derive(Clone, Copy, Debug)]
struct Refusal(AcceptError);

impl fmt::Display for Refusal {
    ghost output = { λ r. Some (refusal_text r.0) };

    fn fmt<W: fmt::Write>(&self, f: &mut fmt::Formatter<W>) -> fmt::Result {
        match self.0 {
            AcceptError::TdCall(error) => write!(f, "5 {error}"),
            error => write!(f, "{}", error.number()),
        }
    }
}

impl Answer {
    // The fault of a refusal.
    pub fn fault(&self) -> Option<Fault>
        ensures { result ≡ fault_of self.now }
    {
        match self {
            Answer::Refused(fault) => Some(*fault),
            Answer::NotFound(fault) => Some(*fault),
            _ => None,
        }
    }
}

// All places of a fault, on one line.
#[derive(Clone, Copy, Debug)]
pub struct Places(pub Fault);

impl fmt::Display for Places {
    ghost output = { λ p. Some (places_text p.0) };

    fn fmt<W: fmt::Write>(&self, f: &mut fmt::Formatter<W>) -> fmt::Result {
        let fault = self.0;
        write!(
            f,
            "  ! {} layer={} status=0x{:x} level={} address=0x{:x} count={} part={} unit={}",
            fault.number(),
            fault.layer,
            fault.status,
            fault.level,
            fault.address,
            fault.count,
            fault.part,
            fault.unit
        )
    }
}

// The fault of a refusal that the table gives and that has no further place.
pub fn in_table(error: AcceptError) -> Fault
    ensures { result ≡ table_fault error }
{
    Fault {
        error,
        layer: Layer::Table,
        status: 0,
        level: 0,
        address: 0,
        count: 0,
        part: 0,
        unit: 0,
    }
}
