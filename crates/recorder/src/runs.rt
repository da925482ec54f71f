// Runs: where the items of a list go on, each from the one before it.
ghost use Rattle.std.specs.Iterator.{at_most};
ghost use Rattle.std.specs.Prelude.{◌≡◌, ℕ, ◌+◌, ◌-◌, ◌<◌, ◌≤◌, Bool, true, false, length, nat_eq, option_map};
ghost use Rattle.recorder.specs.Chains.{goes_on, level_bytes};
ghost use Rattle.recorder.specs.Runs.{NextRun, RunEnd};

use super::Exchange;
use host::page_level::PageLevel;

// What may go on from another of its kind.
pub trait Chain {
    ghost chained: { Self → Self → Bool };

    // Does this one go on from the one before?
    fn follows(&self, before: &Self) -> bool
        ensures { result ≡ chained self.now before.now };
}

// The place behind the run that begins at a place; that place itself where the list ends before it.
pub fn run_end<T: Chain>(items: &[T], from: usize) -> usize
    ensures { RunEnd T.chained items.now from result }
{
    let Some(rest) = items.get(from..) else {
        return from;
    };
    match rest.chunk_by(|before, item| item.follows(before)).next() {
        Some(first) => from + first.len(),
        None => from,
    }
}

// Goes over the runs of a list, the first of them first.
#[derive(Debug, Drop)]
pub struct Runs<'a, T>(&'a [T]);

impl<'a, T> Runs<'a, T> {
    // All the runs of a list.
    pub fn new(items: &'a [T]) -> Runs<'a, T>
        ensures { result.0.now ≡ items.now }
    {
        Runs(items)
    }
}

impl<'a, T: Chain> Iterator for Runs<'a, T> {
    type Item = &'a [T];

    ghost next_gives = { λ a r b. NextRun T.chained a.0.now (option_map (λ s. s.now) r) b.0.now };

    ghost remaining = { λ s. at_most (length s.0.now) };

    fn next(&mut self) -> Option<&'a [T]> {
        if self.0.is_empty() {
            return None;
        }
        let (run, behind) = self.0.split_at(run_end(self.0, 0));
        self.0 = behind;
        Some(run)
    }
}

// A byte goes on from an equal one.
impl Chain for u8 {
    ghost chained = { nat_eq };

    fn follows(&self, before: &u8) -> bool {
        self == before
    }
}

// A request goes on from one of its level that has the same reply and the block before.
impl Chain for Exchange {
    ghost chained = { goes_on };

    fn follows(&self, before: &Exchange) -> bool {
        self.block.level == before.block.level
            && self.status == before.status
            && self.block.address >= before.block.address
            && self.block.address - before.block.address == level_bytes(before.block.level)
    }
}

// The size of the blocks of a level; 0 above level 2, where there are none.
fn level_bytes(level: u8) -> u64
    ensures { result ≡ level_bytes level }
{
    PageLevel::try_from(level).map_or(0, PageLevel::bytes)
}
