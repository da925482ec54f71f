// Requests in runs: some of one level at addresses that follow each other.
ghost use Rattle.recorder.specs.Chains.{level_bytes};
ghost use Rattle.script.specs.Requests.{asked, blocks_in, goes_on, text_of};
ghost use Rattle.std.specs.Prelude.{◌≡◌, Some, IfOk, IsOk, length, true};

use fault::Fault;
use host::Block;
use host::page_level::PageLevel;
use recorder::Exchange;
use std::alloc::{AllocError, Global};
use std::fmt;

// A run of requests: the first of them, and how many there are.
#[derive(Clone, Copy, Debug, PartialEq, Eq)]
pub struct RequestRun {
    pub first: Block,
    pub times: u64,
}

impl fmt::Display for RequestRun {
    ghost output = { λ r. Some (text_of r) };

    fn fmt<W: fmt::Write>(&self, f: &mut fmt::Formatter<W>) -> fmt::Result {
        let level = self.first.level;
        let address = self.first.address;
        if self.times == 1 {
            write!(f, "{level}@0x{address:x}")
        } else {
            write!(f, "{level}@0x{address:x}*{}", self.times)
        }
    }
}

// The size of the blocks of a level; 0 above level 2, where there are none.
fn level_bytes(level: u8) -> u64
    ensures { result ≡ level_bytes level }
{
    PageLevel::try_from(level).map_or(0, PageLevel::bytes)
}

// Does a request go on from another: the same level, and the block behind?
fn goes_on(before: &Block, block: &Block) -> bool
    ensures { result ≡ goes_on before.now block.now }
{
    before.level == block.level
        && before.address <= block.address
        && block.address - before.address == level_bytes(before.level)
}

// The runs of the requests of some exchanges.
pub fn request_runs(heap: Global, exchanges: &[Exchange]) -> Result<Vec<RequestRun>, AllocError>
    ensures { IfOk result (λ runs. asked runs.items ≡ blocks_in exchanges.now) }
{
    let mut runs = Vec::new(heap);
    for run in exchanges.chunk_by(|before, exchange| goes_on(&before.block, &exchange.block)) {
        runs.push(RequestRun {
            first: run[0].block,
            times: run.len() as u64,
        })?;
    }
    Ok(runs)
}

// What a walk answered, and what it asked for.
#[derive(Debug, Drop)]
pub struct Walked {
    pub answer: Result<u64, Fault>,
    pub count: usize,
    pub runs: Vec<RequestRun>,
}

impl Walked {
    // A walk with these exchanges. Where some are missing there was no memory for them.
    pub fn new(
        heap: Global,
        exchanges: &[Exchange],
        complete: bool,
        answer: Result<u64, Fault>,
    ) -> Result<Walked, AllocError>
        ensures complete { IsOk result → complete ≡ true }
        ensures answer { IfOk result (λ w. w.answer ≡ answer) }
        ensures count { IfOk result (λ w. w.count ≡ length exchanges.now) }
        ensures runs { IfOk result (λ w. asked w.runs.items ≡ blocks_in exchanges.now) }
    {
        if !complete {
            return Err(AllocError);
        }
        Ok(Walked {
            answer,
            count: exchanges.len(),
            runs: request_runs(heap, exchanges)?,
        })
    }
}
