// The host of a case: a map, and the layers that the case has over it.
ghost use Rattle.script.specs.Names.{part_name};
ghost use Rattle.accept_memory.specs.Walks.{walk_answer};
ghost use Rattle.fault.specs.Refusals.{told_by};
ghost use Rattle.hosts.specs.Checks.{checked_shape, checked_up_to};
ghost use Rattle.script.specs.Hosts.{host_of, host_over};
ghost use Rattle.std.specs.Prelude.{◌≡◌, ◌≤◌, [], Some, ◌↔◌, IfOk, IfErr, IsErr, OnOk, OnErr, length, min};

use crate::line::LineError;
use crate::requests::Walked;
use accept_memory::accept_memory;
use efi_table::layout::Range;
use fault::AcceptError;
use hosts::cap::{Cap, CapLevel};
use hosts::inject::Inject;
use hosts::map::{MapHost, MapShape};
use hosts::retry::{Retry, RetryCount};
use recorder::Recorder;
use std::alloc::{AllocError, Global};
use std::fmt;

// What a host is made of, from the map up.
#[derive(Clone, Copy, Debug, PartialEq, Eq, PartialOrd, Ord)]
pub enum Part {
    Map,
    Inject,
    Retry,
    Cap,
}

impl fmt::Display for Part {
    ghost output = { λ p. Some (part_name p) };

    fn fmt<W: fmt::Write>(&self, f: &mut fmt::Formatter<W>) -> fmt::Result {
        f.write_str(match self {
            Part::Map => "map",
            Part::Inject => "inject",
            Part::Retry => "retry",
            Part::Cap => "cap",
        })
    }
}

// Why a setting is not made.
#[derive(Clone, Copy, Debug, PartialEq, Eq)]
pub enum SettingError {
    Line(LineError),
    // The numbers of a part of the host are refused.
    Numbers(Part, AcceptError),
}

impl From<LineError> for SettingError {
    fn from(error: LineError) -> SettingError {
        SettingError::Line(error)
    }
}

// Where the map lies, and the numbers of the layers.
#[derive(Clone, Copy, Debug)]
pub struct Numbers {
    shape: MapShape,
    retry: RetryCount,
    cap: CapLevel,
}

// The map, and the numbers of the layers. Those of a layer that the case has not pass every request on.
#[derive(Debug, Drop)]
pub struct Layers {
    numbers: Numbers,
    pages: Vec<u8>,
    inject: Vec<u64>,
    // how many words of inject were used
    used: usize,
    // the highest part so far
    top: Part,
}

// A number of a layer: above 255, where no layer has any, it counts as 255.
fn small(number: u64) -> u8
    ensures { result ≡ min number 255 }
{
    number.min(255) as u8
}

impl Layers {
    // A map alone.
    pub fn new(heap: Global, base: u64, pages: Vec<u8>) -> Result<Layers, AcceptError>
        ensures shape { IfOk result (λ l. checked_shape base (length pages.items) ≡ Ok l.numbers.shape) }
        ensures refused { IfErr result (λ e. checked_shape base (length pages.items) ≡ Err e) }
        ensures pages { IfOk result (λ l. l.pages ≡ pages) }
        ensures plain { IfOk result (λ l. (l.inject.items ≡ []) × ((l.used ≡ 0) × ((l.numbers.retry ≡ 0) × (l.numbers.cap ≡ 2)))) }
        ensures top { IfOk result (λ l. l.top ≡ Part.Map) }
    {
        let shape = MapShape::new(base, pages.len() as u64)?;
        let retry = RetryCount::new(0)?;
        let cap = CapLevel::new(2)?;
        Ok(Layers {
            numbers: Numbers { shape, retry, cap },
            pages,
            inject: Vec::new(heap),
            used: 0,
            top: Part::Map,
        })
    }

    // The bytes of the pages as they are now.
    pub fn pages(&self) -> &[u8]
        ensures { result.now ≡ self.now.pages.items }
    {
        self.pages.as_slice()
    }

    // Takes a layer for the highest part. It is to stand above the highest one so far.
    fn put_on_top(&mut self, part: Part) -> Result<(), LineError>
        ensures ok { OnOk result (self.new ≡ record self.old { top = part }) }
        ensures again { (result ≡ Err LineError.Again) ↔ (part ≡ self.old.top) }
        ensures err { OnErr result (self.new ≡ self.old) }
    {
        if part == self.top {
            return Err(LineError::Again);
        }
        if part < self.top {
            return Err(LineError::LayerOrder);
        }
        self.top = part;
        Ok(())
    }

    // Adds a layer of inject with some words.
    pub fn add_inject(&mut self, words: Vec<u64>) -> Result<(), SettingError>
        ensures ok { OnOk result (self.new ≡ record self.old { inject = words; top = Part.Inject }) }
        ensures err { OnErr result (self.new ≡ self.old) }
        ensures again { self.old.top ≡ Part.Inject → IsErr result }
    {
        self.put_on_top(Part::Inject)?;
        self.inject = words;
        Ok(())
    }

    // Adds a layer of retry with some repeats.
    pub fn add_retry(&mut self, count: u64) -> Result<(), SettingError>
        ensures count { OnOk result (checked_up_to 7 (min count 255) ≡ Ok self.new.numbers.retry) }
        ensures top { OnOk result (self.new.top ≡ Part.Retry) }
        ensures again { self.old.top ≡ Part.Retry → IsErr result }
    {
        self.put_on_top(Part::Retry)?;
        let count = RetryCount::new(small(count));
        self.numbers.retry = count.map_err(|error| SettingError::Numbers(Part::Retry, error))?;
        Ok(())
    }

    // Adds a layer of cap at some level.
    pub fn add_cap(&mut self, level: u64) -> Result<(), SettingError>
        ensures level { OnOk result (checked_up_to 2 (min level 255) ≡ Ok self.new.numbers.cap) }
        ensures top { OnOk result (self.new.top ≡ Part.Cap) }
        ensures again { self.old.top ≡ Part.Cap → IsErr result }
    {
        self.put_on_top(Part::Cap)?;
        let level = CapLevel::new(small(level));
        self.numbers.cap = level.map_err(|error| SettingError::Numbers(Part::Cap, error))?;
        Ok(())
    }

    // A direct walk over the host.
    pub fn walk(&mut self, heap: Global, span: Range) -> Result<Walked, AllocError>
        ensures { IfOk result (λ w. told_by w.answer ≡ walk_answer (host_of self.old).replies span.start span.end) }
    {
        let words = self.inject.as_slice().get(self.used..).unwrap_or(&[]);
        let pages = self.pages.as_mut_slice();
        let (walked, used) = walk_bytes(heap, &self.numbers, words, pages, span);
        self.used = self.used.saturating_add(used);
        walked
    }
}

// A direct walk over a cap over a retry over an inject with some words over a map of some bytes. Answers too how many of the
// words were used.
fn walk_bytes(
    heap: Global,
    numbers: &Numbers,
    words: &[u64],
    pages: &mut [u8],
    span: Range,
) -> (Result<Walked, AllocError>, usize)
    ensures { IfOk result.0 (λ w. told_by w.answer ≡ walk_answer (host_over numbers.now words.now pages.old).replies span.start span.end) }
{
    let map = MapHost::new(numbers.shape, pages);
    let inject = Inject::new(words, map);
    let layers = Cap::new(numbers.cap, Retry::new(numbers.retry, inject));
    let mut host = Recorder::new(heap, layers);
    let answer = accept_memory(&mut host, span.start, span.end);
    let used = host.below().below().below().used();
    let walked = Walked::new(heap, host.exchanges(), host.is_complete(), answer);
    (walked, used)
}
