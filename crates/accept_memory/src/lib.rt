// The acceptance of memory over any host: one page, or a walk over a span, by steps or at once.
#![tactic(auto)]

ghost use Rattle.accept_memory.specs.Promises.{Promises};
ghost use Rattle.accept_memory.specs.Walks.{walk_answer, walk_requests};
ghost use Rattle.fault.specs.Refusals.{told_by};
ghost use Rattle.host.specs.Pages.{accepting};
ghost use Rattle.host.specs.States.{received, received_all};
ghost use Rattle.tdcall.specs.Statuses.{decoded};
ghost use Rattle.std.specs.Prelude.{◌≡◌, []};

use fault::Fault;
pub use host::page_level;
use host::{Block, Host};
use tdcall::{TdCallError, decode};
use walk::Walk;

pub mod walk;

// Asks for the block of a level at an address, and decodes the reply.
pub fn accept_page<H: Host>(host: &mut H, level: u8, address: u64) -> Result<(), TdCallError>
    ensures answer { result ≡ decoded ((H.state host.old).replies [] (accepting level address)) }
    ensures state { H.state host.new ≡ received (accepting level address) (H.state host.old) }
{
    decode(host.accept(Block { level, address }))
}

// Accepts the pages of [start, end): asks for the largest blocks that fit, and for smaller ones where the host wants them.
// Answers how many requests it made, or the fault that ended it.
pub fn accept_memory<H: Host>(host: &mut H, start: u64, end: u64) -> Result<u64, Fault>
    ensures answer { told_by result ≡ walk_answer (H.state host.old).replies start end }
    ensures state { H.state host.new ≡ received_all (walk_requests (H.state host.old).replies start end) (H.state host.old) }
    ensures promises { Promises start end (H.state host.old).replies (H.state host.old).pages (H.state host.new).pages (told_by result) }
{
    let mut walk = Walk::begin(start, end);
    while let Some(request) = walk.request() {
        let status = host.accept(Block::from(request));
        walk.reply(status);
    }
    walk.outcome()
}
