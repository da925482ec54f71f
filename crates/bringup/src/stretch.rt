// The stretch of memory that is accepted: its pages as the firmware leaves them, and two walks over it.
use crate::report::{print_answer, print_exchanges, print_pages};
use accept_memory::accept_memory;
use anyhow::Context;
use host::page_level::PageLevel;
use hosts::cap::{Cap, CapLevel};
use hosts::inject::Inject;
use hosts::map::{MapHost, MapPage, MapShape};
use hosts::retry::{Retry, RetryCount};
use recorder::Recorder;
use std::alloc::{AllocError, Global};
use std::io;
use tdcall::TdCallError;

const BASE: u64 = 0x4000_0000;

const MIDDLE: u64 = 0x8060_0000;

const END: u64 = 0x80A0_0000;

// The pages from the base on: how many, and what each is.
const PARTS: [(usize, MapPage); 8] = [
    (262144, MapPage::Pending(PageLevel::L3_1G)),
    (512, MapPage::Pending(PageLevel::L2_2M)),
    (16, MapPage::Accepted),
    (496, MapPage::Pending(PageLevel::L1_4K)),
    (512, MapPage::Pending(PageLevel::L2_2M)),
    (700, MapPage::Pending(PageLevel::L1_4K)),
    (1, MapPage::Absent),
    (323, MapPage::Pending(PageLevel::L1_4K)),
];

// The firmware's pages, a byte each.
fn firmware_pages(heap: Global) -> Result<Vec<u8>, AllocError> {
    let mut pages = Vec::new(heap);
    for (count, page) in PARTS {
        let end = pages.len().saturating_add(count);
        pages.resize(end, u8::from(page))?;
    }
    Ok(pages)
}

// The pages of the stretch, and the numbers of the hosts over them: where the map lies, the repeats after a busy reply, and
// the cap.
#[derive(Debug, Drop)]
struct Stretch {
    pages: Vec<u8>,
    shape: MapShape,
    repeats: RetryCount,
    cap: CapLevel,
}

impl Stretch {
    // The pages as the firmware leaves them, and the numbers, each checked.
    fn new(heap: Global) -> anyhow::Result<Stretch> {
        let pages = firmware_pages(heap)?;
        let count = pages.len() as u64;
        let shape = MapShape::new(BASE, count).context("the map's numbers are refused by 13")?;
        let repeats = RetryCount::new(3).context("the repeats are refused by 13")?;
        let cap = CapLevel::new(1).context("the cap is refused by 13")?;
        Ok(Stretch {
            pages,
            shape,
            repeats,
            cap,
        })
    }

    fn print_pages(&self, rt: &HostRuntime) -> io::Result<()> {
        print_pages(rt, BASE, self.pages.as_slice())
    }

    // Accepts [start, end) and prints the requests of the walk, those that reached the map, and the answer.
    fn walk(
        &mut self,
        rt: &HostRuntime,
        words: &[u64],
        start: u64,
        end: u64,
    ) -> anyhow::Result<()> {
        println!(rt;
            "\nwalk of [{start:#x}, {end:#x}), under a cap at 2 MiB and 3 repeats after a busy reply"
        )?;
        let heap = rt.alloc();
        let map = Inject::new(words, MapHost::new(self.shape, self.pages.as_mut_slice()));
        let layers = Cap::new(self.cap, Retry::new(self.repeats, Recorder::new(heap, map)));
        let mut host = Recorder::new(heap, layers);
        let answer = accept_memory(&mut host, start, end);
        println!(rt; "requests of the walk:")?;
        print_exchanges(rt, host.exchanges())?;
        println!(rt; "requests that came below the retry:")?;
        let reached = host.below().below().below();
        print_exchanges(rt, reached.exchanges())?;
        if !host.is_complete() || !reached.is_complete() {
            println!(rt; "some requests are not printed, for want of memory")?;
        }
        print_answer(rt, answer)?;
        Ok(())
    }
}

// The whole task: the pages before, a walk that succeeds, a walk that a missing page stops, the pages after.
pub(crate) fn bring_up(rt: &HostRuntime) -> anyhow::Result<()> {
    let mut stretch = Stretch::new(rt.alloc())?;
    println!(rt; "pages as the firmware leaves them:")?;
    stretch.print_pages(rt)?;
    let busy = TdCallError::TdxOperandBusy.status();
    stretch.walk(rt, &[0, 0, busy, busy, 0, busy], BASE, MIDDLE)?;
    println!(rt; "pages then:")?;
    stretch.print_pages(rt)?;
    stretch.walk(rt, &[], MIDDLE, END)?;
    println!(rt; "pages at the end:")?;
    stretch.print_pages(rt)?;
    Ok(())
}
