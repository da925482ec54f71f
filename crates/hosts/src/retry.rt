// Retry over any host: a busy reply is followed by the same request again, some times at most, and the last reply is given.
ghost use Rattle.std.specs.Prelude.{◌≡◌, ◌≤◌, [], ◌∷◌};
ghost use Rattle.host.proofs.Layers.{layer_sounds};
ghost use Rattle.host.specs.Layers.{layered};
ghost use Rattle.host_models.proofs.Retry.{retry_lawful};
ghost use Rattle.host_models.specs.Retry.{is_busy, retrying};

use super::at_most::AtMost;
use host::{Block, Host};
use tdcall::TdCallError;

// How many times a request may be made again, from 0 to 7.
pub type RetryCount = AtMost<7>;

#[derive(Debug, Drop)]
pub struct Retry<L> {
    count: u8,
    below: L,
}

impl<L> Retry<L> {
    // A retry of a checked count over a host.
    pub fn new(count: RetryCount, below: L) -> Retry<L>
        ensures retry { result ≡ record { count = count; below = below } }
        ensures low { count ≤ 7 }
    {
        Retry {
            count: count.number(),
            below,
        }
    }

    // The host below.
    pub fn below(&self) -> &L
        ensures { result.now ≡ self.now.below }
    {
        &self.below
    }
}

// Is a reply of class busy?
fn is_busy(reply: u64) -> bool
    ensures { result ≡ is_busy reply }
{
    reply >> 32 == TdCallError::TdxOperandBusy.class()
}

impl<L: Host> Host for Retry<L> {
    ghost state = { λ s. layered retrying s.count (s.count ∷ []) (L.Host.state s.below) };

    ghost sound = { λ s. layer_sounds retrying retry_lawful s.count (L.Host.state s.below).replies (L.Host.state s.below).pages (L.Host.sound s.below) };

    fn accept(&mut self, block: Block) -> u64 {
        let mut reply = 0;
        for _ in 0..=self.count {
            reply = self.below.accept(block);
            if !is_busy(reply) {
                break;
            }
        }
        reply
    }
}
