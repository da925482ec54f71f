// The interface behind which every host stands: pages, requests and replies, and the laws that each host proves.
#![tactic(auto)]

ghost use Rattle.std.specs.Prelude.{◌≡◌, []};
ghost use Rattle.host.specs.Laws.{Sounds};
ghost use Rattle.host.specs.Pages.{accepting};
ghost use Rattle.host.specs.States.{HostState, received};

pub mod page_level;

// The block of a level at an address. It may be one that no page table can map, which a host then refuses.
#[derive(Clone, Copy, Debug, PartialEq, Eq)]
pub struct Block {
    pub level: u8,
    pub address: u64,
}

pub trait Host {
    // What it replies from now on, its pages, the bytes that are lent to it, and what it keeps for good.
    ghost state: { Self → HostState };

    // Whatever is asked from now on, every reply is sound.
    ghost sound: { (s : Self) → Sounds (state s).replies (state s).pages };

    // Asks to accept a block, and answers the 64-bit reply.
    fn accept(&mut self, block: Block) -> u64
        ensures answer { result ≡ (state self.old).replies [] (accepting block.level block.address) }
        ensures state { state self.new ≡ received (accepting block.level block.address) (state self.old) };
}
