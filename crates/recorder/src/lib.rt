// A layer over any host that keeps each request with its reply, and changes nothing.
#![tactic(auto)]

ghost use Rattle.std.specs.Prelude.{◌≡◌, true, [], ◌∷◌, ◌++◌, if◌then◌else◌};

use host::{Block, Host};
use std::alloc::Global;

pub mod runs;

// A request to accept a block, and its reply.
#[derive(Clone, Copy, Debug, PartialEq, Eq)]
pub struct Exchange {
    pub block: Block,
    pub status: u64,
}

#[derive(Debug, Drop)]
pub struct Recorder<L> {
    exchanges: Vec<Exchange>,
    // whether every exchange found memory
    complete: bool,
    below: L,
}

impl<L> Recorder<L> {
    // Nothing recorded yet, over a host.
    pub fn new(heap: Global, below: L) -> Recorder<L>
        ensures none { result.exchanges.items ≡ [] }
        ensures complete { result.complete ≡ true }
        ensures below { result.below ≡ below }
    {
        Recorder {
            exchanges: Vec::new(heap),
            complete: true,
            below,
        }
    }

    // The exchanges, the first of them first.
    pub fn exchanges(&self) -> &[Exchange]
        ensures { result.now ≡ self.now.exchanges.items }
    {
        self.exchanges.as_slice()
    }

    // Are these all the exchanges? None is missing, unless there was no memory for it.
    pub fn is_complete(&self) -> bool
        ensures { result ≡ self.now.complete }
    {
        self.complete
    }

    // The host below.
    pub fn below(&self) -> &L
        ensures { result.now ≡ self.now.below }
    {
        &self.below
    }
}

// Adds an exchange, and answers whether there was memory for it.
fn kept(exchanges: &mut Vec<Exchange>, block: Block, status: u64) -> bool
    ensures { exchanges.new.items ≡ (if result then (exchanges.old.items ++ record { block = block; status = status } ∷ []) else exchanges.old.items) }
{
    exchanges.push(Exchange { block, status }).is_ok()
}

impl<L: Host> Host for Recorder<L> {
    ghost state = { λ s. L.Host.state s.below };

    ghost sound = { λ s. L.Host.sound s.below };

    fn accept(&mut self, block: Block) -> u64 {
        let status = self.below.accept(block);
        let complete = self.complete && kept(&mut self.exchanges, block, status);
        self.complete = complete;
        status
    }
}
