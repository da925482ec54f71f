// A case: what it has set up, and what its calls do.
ghost use Rattle.efi_entries.specs.Entries.{found};
ghost use Rattle.efi_table.specs.Layouts.{building};
ghost use Rattle.script.specs.Settings.{SameBut, SetUp, pages_in};
ghost use Rattle.script.specs.Calls.{Answers, IsOfBitmap, build_checked, covered, looked_up, on_words, sized};
ghost use Rattle.std.specs.Prelude.{option_map, ◌≡◌, ◌↔◌, IfErr, IfOk, IsSome, OnErr, OnOk, None, Some, length};

use crate::answer::{Answer, in_table};
use crate::layers::{Layers, Part, SettingError};
use crate::line::{Call, LineError, Setting};
use crate::replies::Replies;
use crate::requests::{RequestRun, Walked};
use bitmap::{BitmapRef, clear_range, set_range};
use efi_table::header::Header;
use efi_table::layout::{Range, required_size, required_size_for_range};
use fault::AcceptError;
use std::alloc::{AllocError, Global};
use tdcall::TdCallError;

// What answers the requests of a case.
#[derive(Debug, Drop)]
enum Source {
    Host(Layers),
    Replies(Replies),
}

#[derive(Debug, Drop)]
pub struct Case {
    heap: Global,
    image: Option<Vec<u64>>,
    bits: Option<Vec<u64>>,
    // the header of the table that was found
    table: Option<Header>,
    source: Option<Source>,
}

// What a call answers, and the requests that it made.
#[derive(Debug, Drop)]
pub struct Outcome {
    pub answer: Answer,
    pub count: usize,
    pub runs: Vec<RequestRun>,
}

impl Case {
    // A case with nothing set up.
    pub fn new(heap: Global) -> Case
        ensures { result ≡ record { heap = heap; image = None; bits = None; table = None; source = None } }
    {
        Case {
            heap,
            image: None,
            bits: None,
            table: None,
            source: None,
        }
    }

    // The words of the image, of the bitmap and the bytes of the map as they are now.
    pub fn image(&self) -> Option<&[u64]>
        ensures { option_map (λ s. s.now) result ≡ option_map (λ v. v.items) self.now.image }
    {
        match &self.image {
            Some(words) => Some(words.as_slice()),
            None => None,
        }
    }

    pub fn bits(&self) -> Option<&[u64]>
        ensures { option_map (λ s. s.now) result ≡ option_map (λ v. v.items) self.now.bits }
    {
        match &self.bits {
            Some(words) => Some(words.as_slice()),
            None => None,
        }
    }

    pub fn pages(&self) -> Option<&[u8]>
        ensures { option_map (λ s. s.now) result ≡ pages_in self.now.source }
    {
        match &self.source {
            Some(Source::Host(layers)) => Some(layers.pages()),
            _ => None,
        }
    }

    // Sets something up. What the case has already stays.
    pub fn set(&mut self, setting: Setting) -> Result<(), SettingError>
        ensures ok { OnOk result (SetUp self.old setting self.new) }
        ensures err { OnErr result (SameBut self.old self.new) }
    {
        match setting {
            Setting::Image(words) => Ok(place(&mut self.image, words)?),
            Setting::Bits(words) => Ok(place(&mut self.bits, words)?),
            Setting::Map(base, pages) => {
                let layers = Layers::new(self.heap, base, pages);
                let layers = layers.map_err(|error| SettingError::Numbers(Part::Map, error))?;
                Ok(place(&mut self.source, Source::Host(layers))?)
            }
            Setting::Script(words) => Ok(place(
                &mut self.source,
                Source::Replies(Replies::new(words)),
            )?),
            Setting::Inject(words) => layers_in(&mut self.source)?.add_inject(words),
            Setting::Retry(count) => layers_in(&mut self.source)?.add_retry(count),
            Setting::Cap(level) => layers_in(&mut self.source)?.add_cap(level),
        }
    }

    // Makes a call.
    pub fn call(&mut self, call: Call) -> Result<Outcome, AllocError>
        ensures { IfOk result (λ o. Answers self.old call o.answer) }
    {
        let answer = match call {
            Call::Walk(span) => return self.walk(span),
            Call::Size(range) => sized(required_size_for_range(range)),
            Call::Sizes(ranges) => sized(required_size(ranges.as_slice())),
            Call::Build(range) => self.build(range),
            Call::Find(entries) => self.find(entries.as_slice()),
            Call::Cover => self.cover(),
            Call::Decode(class) => Answer::Name(TdCallError::from(class)),
            Call::Later(_) => Answer::NotNow,
            other => self.bitmap_call(&other),
        };
        Ok(Outcome {
            answer,
            count: 0,
            runs: Vec::new(self.heap),
        })
    }

    // The check of building: a table that passes it cannot be built today.
    fn build(&self, coverage: Range) -> Answer
        ensures { result ≡ on_words (λ words. build_checked (building coverage.start coverage.end (length words))) self.now.image }
    {
        let Some(image) = &self.image else {
            return Answer::NotNow;
        };
        match Header::for_coverage(coverage, image.len()) {
            Ok(_) => Answer::NotNow,
            Err(error) => Answer::Refused(in_table(error)),
        }
    }

    fn find(&mut self, entries: &[u8]) -> Answer
        ensures { result ≡ on_words (λ words. looked_up (found entries.now words)) self.old.image }
    {
        let Some(image) = &self.image else {
            return Answer::NotNow;
        };
        match efi_entries::find(entries, image.as_slice()) {
            Ok(header) => {
                self.table = Some(header);
                Answer::Found
            }
            Err(error) => Answer::NotFound(in_table(error)),
        }
    }

    fn cover(&self) -> Answer
        ensures { result ≡ covered self.now.table }
    {
        match &self.table {
            Some(header) => Answer::Covers(header.coverage_range()),
            None => Answer::NotNow,
        }
    }

    // A call of the bare bitmap.
    fn bitmap_call(&mut self, call: &Call) -> Answer
        ensures { IsOfBitmap call.now → Answers self.old call.now result }
    {
        let Some(words) = &mut self.bits else {
            return Answer::NotNow;
        };
        let bits = BitmapRef::new(words.as_slice());
        match call {
            Call::FindSet(units) => Answer::Unit(bits.find_next_set(units.start, units.end)),
            Call::FindZero(units) => Answer::Unit(bits.find_next_zero(units.start, units.end)),
            Call::HasSet(units) => Answer::Holds(bits.has_set_bit(units.start, units.end)),
            Call::CountMarks => Answer::Number(bits.pending_unit_count()),
            Call::Capacity => Answer::Number(bits.capacity()),
            Call::SetRange(units) => {
                set_range(words.as_mut_slice(), units.start, units.end);
                Answer::Done
            }
            Call::ClearRange(units) => {
                clear_range(words.as_mut_slice(), units.start, units.end);
                Answer::Done
            }
            _ => Answer::NotNow,
        }
    }

    // A walk: direct over a host, stepped over replies.
    fn walk(&mut self, span: Range) -> Result<Outcome, AllocError> {
        let heap = self.heap;
        let walked = match &mut self.source {
            Some(Source::Host(layers)) => Some(layers.walk(heap, span)?),
            Some(Source::Replies(replies)) => replies.walk(heap, span)?,
            None => None,
        };
        Ok(match walked {
            Some(walked) => outcome_of(walked),
            None => Outcome {
                answer: Answer::NotNow,
                count: 0,
                runs: Vec::new(heap),
            },
        })
    }
}

// The map and its layers.
fn layers_in(source: &mut Option<Source>) -> Result<&mut Layers, LineError> {
    match source {
        Some(Source::Host(layers)) => Ok(layers),
        _ => Err(LineError::NoMap),
    }
}

// Puts a value where there is none.
fn place<T: Drop>(slot: &mut Option<T>, value: T) -> Result<(), LineError>
    ensures ok { OnOk result (slot.new ≡ Some value) }
    ensures again { (result ≡ Err LineError.Again) ↔ IsSome slot.old }
    ensures only { IfErr result (λ e. e ≡ LineError.Again) }
    ensures err { OnErr result (slot.new ≡ slot.old) }
{
    if slot.is_some() {
        return Err(LineError::Again);
    }
    *slot = Some(value);
    Ok(())
}

fn sized(size: Result<usize, AcceptError>) -> Answer
    ensures { result ≡ sized size }
{
    match size {
        Ok(bytes) => Answer::Bytes(bytes),
        Err(error) => Answer::Refused(in_table(error)),
    }
}

fn outcome_of(walked: Walked) -> Outcome {
    let Walked {
        answer,
        count,
        runs,
    } = walked;
    let answer = match answer {
        Ok(_) => Answer::Done,
        Err(fault) => Answer::Refused(fault),
    };
    Outcome {
        answer,
        count,
        runs,
    }
}
