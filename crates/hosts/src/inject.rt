// Inject over any host: a list of words, one for each request; a word that is neither zero nor of class already accepted is
// the reply, and any other passes the request on. It makes a host that replies anything at chosen requests, and still shows every law.
ghost use Rattle.std.specs.Prelude.{◌≡◌, [], drop};
ghost use Rattle.host.proofs.Layers.{layer_sounds};
ghost use Rattle.host.specs.Layers.{layered};
ghost use Rattle.host_models.proofs.Inject.{inject_lawful};
ghost use Rattle.host_models.specs.Inject.{injecting, is_reply};

use host::{Block, Host};
use tdcall::TdCallError;

#[derive(Debug, Drop)]
pub struct Inject<'a, L> {
    words: &'a [u64],
    used: usize,
    below: L,
}

impl<'a, L> Inject<'a, L> {
    // The words, none of them used, over a host.
    pub fn new(words: &'a [u64], below: L) -> Inject<'a, L>
        ensures { result ≡ record { words = words.entry; used = 0; below = below } }
    {
        Inject {
            words,
            used: 0,
            below,
        }
    }

    // How many words were used: one for each request, until there are no more.
    pub fn used(&self) -> usize
        ensures { result ≡ self.now.used }
    {
        self.used
    }

    // The host below.
    pub fn below(&self) -> &L
        ensures { result.now ≡ self.now.below }
    {
        &self.below
    }
}

// Is a word a reply itself?
fn is_reply(word: u64) -> bool
    ensures { result ≡ is_reply word }
{
    word != 0 && word >> 32 != TdCallError::TdxPageAlreadyAccepted.class()
}

impl<L: Host> Host for Inject<'_, L> {
    ghost state = { λ s. layered injecting (drop s.used s.words.now) [] (L.Host.state s.below) };

    ghost sound = { λ s. layer_sounds injecting inject_lawful (drop s.used s.words.now) (L.Host.state s.below).replies (L.Host.state s.below).pages (L.Host.sound s.below) };

    fn accept(&mut self, block: Block) -> u64 {
        if let Some(word) = self.words.get(self.used) {
            self.used += 1;
            if is_reply(*word) {
                return *word;
            }
        }
        self.below.accept(block)
    }
}
