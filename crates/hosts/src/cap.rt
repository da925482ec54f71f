// A cap over any host: a request above its level gets size mismatch and goes no further.
ghost use Rattle.std.specs.Prelude.{◌≡◌, ◌≤◌, [], ◌∷◌};
ghost use Rattle.host.proofs.Layers.{layer_sounds};
ghost use Rattle.host.specs.Layers.{layered};
ghost use Rattle.host_models.proofs.Cap.{cap_lawful};
ghost use Rattle.host_models.specs.Cap.{capping};

use super::at_most::AtMost;
use host::{Block, Host};
use tdcall::TdCallError;

// The level of a cap, from 0 to 2.
pub type CapLevel = AtMost<2>;

#[derive(Debug, Drop)]
pub struct Cap<L> {
    level: u8,
    below: L,
}

impl<L> Cap<L> {
    // A cap of a checked level over a host.
    pub fn new(level: CapLevel, below: L) -> Cap<L>
        ensures cap { result ≡ record { level = level; below = below } }
        ensures low { level ≤ 2 }
    {
        Cap {
            level: level.number(),
            below,
        }
    }

    // The host below.
    pub fn below(&self) -> &L
        ensures { result.now ≡ self.now.below }
    {
        &self.below
    }
}

impl<L: Host> Host for Cap<L> {
    ghost state = { λ s. layered capping s.level (s.level ∷ []) (L.Host.state s.below) };

    ghost sound = { λ s. layer_sounds capping cap_lawful s.level (L.Host.state s.below).replies (L.Host.state s.below).pages (L.Host.sound s.below) };

    fn accept(&mut self, block: Block) -> u64 {
        if block.level > self.level {
            return TdCallError::TdxPageSizeMismatch.status();
        }
        self.below.accept(block)
    }
}
