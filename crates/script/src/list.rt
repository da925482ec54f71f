// Lists: items one after the other, `x*n` for n times x.
ghost use Rattle.script.specs.Lists.{AreRunsOf, IsRepeated, expanded, repeated_in, text_of};
ghost use Rattle.std.specs.Prelude.{◌≡◌, ◌<◌, ◌≤◌, ◌+◌, ◌++◌, ◌⊎◌, Any, Some, length, replicate, IfOk, IfErr, OnOk, OnErr};
ghost use Rattle.std.specs.Result.{OkIff};

use crate::line::LineError;
use crate::number::{NumberError, number};
use std::alloc::{AllocError, Global};
use std::fmt;
use std::str::FromStr;

// The most items that a list may have.
pub const MOST_ITEMS: usize = 4_194_304;

// A value, some times.
#[derive(Clone, Copy, Debug, PartialEq, Eq)]
pub struct Repeated {
    pub value: u64,
    pub times: u64,
}

impl FromStr for Repeated {
    type Err = NumberError;

    ghost from_str_gives = { λ word r. OkIff r (IsRepeated word) (repeated_in word) };

    fn from_str(word: &str) -> Result<Repeated, NumberError> {
        match word.split_once('*') {
            Some((value, times)) => Ok(Repeated {
                value: number(value)?,
                times: number(times)?,
            }),
            None => Ok(Repeated {
                value: number(word)?,
                times: 1,
            }),
        }
    }
}

// A run is printed as it is written, in hexadecimal.
impl fmt::Display for Repeated {
    ghost output = { λ r. Some (text_of r) };

    fn fmt<W: fmt::Write>(&self, f: &mut fmt::Formatter<W>) -> fmt::Result {
        if self.times == 1 {
            write!(f, "0x{:x}", self.value)
        } else {
            write!(f, "0x{:x}*{}", self.value, self.times)
        }
    }
}

// Adds an item some times; refuses to make the list too long.
fn add_times(list: &mut Vec<u64>, run: Repeated) -> Result<(), LineError>
    requires { length list.old.items ≤ MOST_ITEMS }
    ensures ok { OnOk result (list.new.items ≡ list.old.items ++ replicate run.times run.value) }
    ensures most { OnOk result (length list.new.items ≤ MOST_ITEMS) }
    ensures too_many { result ≡ Err LineError.TooManyItems → MOST_ITEMS < length list.old.items + run.times }
    ensures err { IfErr result (λ e. (e ≡ LineError.TooManyItems) ⊎ (e ≡ LineError.NoMemory)) }
{
    let room = MOST_ITEMS - list.len();
    if run.times > room as u64 {
        return Err(LineError::TooManyItems);
    }
    let end = list.len() + run.times as usize;
    if list.resize(end, run.value).is_err() {
        return Err(LineError::NoMemory);
    }
    Ok(())
}

// The list that runs are. Refuses one of too many items; where there is memory for it, no other.
pub fn expand(heap: Global, runs: &[Repeated]) -> Result<Vec<u64>, LineError>
    ensures ok { IfOk result (λ list. list.items ≡ expanded runs.now) }
    ensures most { IfOk result (λ list. length list.items ≤ MOST_ITEMS) }
    ensures too_many { result ≡ Err LineError.TooManyItems → MOST_ITEMS < length (expanded runs.now) }
    ensures err { IfErr result (λ e. (e ≡ LineError.TooManyItems) ⊎ (e ≡ LineError.NoMemory)) }
{
    let mut list = Vec::new(heap);
    for run in runs {
        add_times(&mut list, *run)?;
    }
    Ok(list)
}

// The runs of a list, each as long as it can be.
pub fn runs_of(heap: Global, list: &[u64]) -> Result<Vec<Repeated>, AllocError>
    ensures { IfOk result (λ runs. AreRunsOf runs.items list.now) }
{
    let mut runs = Vec::new(heap);
    for run in list.chunk_by(|before, item| before == item) {
        runs.push(Repeated {
            value: run[0],
            times: run.len() as u64,
        })?;
    }
    Ok(runs)
}

// The bytes that items are; none may be above 255.
pub fn narrowed(heap: Global, list: &[u64]) -> Result<Vec<u8>, LineError>
    ensures ok { IfOk result (λ bytes. bytes.items ≡ list.now) }
    ensures err { IfErr result (λ e. ((e ≡ LineError.NoByte) × Any (λ item. 255 < item) list.now) ⊎ (e ≡ LineError.NoMemory)) }
{
    let mut bytes = Vec::with_capacity(heap, list.len())?;
    for item in list {
        let Ok(byte) = u8::try_from(*item) else {
            return Err(LineError::NoByte);
        };
        bytes.push(byte)?;
    }
    Ok(bytes)
}

// The items that bytes are.
pub fn widened(heap: Global, bytes: &[u8]) -> Result<Vec<u64>, AllocError>
    ensures { IfOk result (λ list. list.items ≡ bytes.now) }
{
    bytes.iter().map(|byte| u64::from(*byte)).collect(heap)
}
