// A stepped walk over a list of replies, with no host.
ghost use Rattle.std.specs.Prelude.{◌≡◌, ◌≤◌, ◌+◌, ◌-◌, ◌^◌, min, IfOk, IfSome};

use crate::requests::Walked;
use accept_memory::walk::Walk;
use efi_table::layout::Range;
use recorder::Exchange;
use std::alloc::{AllocError, Global};
use std::iter;

// The reply behind the last one of the list. It ends every walk.
const LAST_REPLY: u64 = 0xFFFF_FFFF_0000_0000;

#[derive(Debug, Drop)]
pub struct Replies {
    words: Vec<u64>,
    used: usize,
}

impl Replies {
    // The replies, none of them used.
    pub fn new(words: Vec<u64>) -> Replies
        ensures { result ≡ record { words = words; used = 0 } }
    {
        Replies { words, used: 0 }
    }

    // A walk that takes the next replies of the list.
    pub fn walk(&mut self, heap: Global, span: Range) -> Result<Option<Walked>, AllocError>
        ensures words { self.new.words ≡ self.old.words }
        ensures used { self.old.used ≤ self.new.used }
        ensures next { IfOk result (λ o. IfSome o (λ w. self.new.used ≡ min (self.old.used + w.count) (2 ^ 64 - 1))) }
    {
        let mut exchanges = Vec::new(heap);
        let mut walk = Walk::begin(span.start, span.end);
        let left = self.words.as_slice().get(self.used..).unwrap_or(&[]);
        for status in left.iter().copied().chain(iter::once(LAST_REPLY)) {
            let Some(request) = walk.request() else {
                break;
            };
            exchanges.push(Exchange {
                block: request.into(),
                status,
            })?;
            walk.reply(status);
        }
        self.used = self.used.saturating_add(exchanges.len());
        match walk.answer() {
            Some(answer) => Ok(Some(Walked::new(heap, exchanges.as_slice(), true, answer)?)),
            None => Ok(None),
        }
    }
}
