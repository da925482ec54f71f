// What is printed: pages by runs, requests by runs, and what a walk answered.
ghost use Rattle.bringup.specs.Names.{level_name, pages_word, reply_name};
ghost use Rattle.tdcall.specs.Statuses.{decoded};
ghost use Rattle.std.specs.Prelude.{◌≡◌, Some};

use fault::Fault;
use host::page_level::PageLevel;
use hosts::map::MapPage;
use recorder::Exchange;
use recorder::runs::Runs;
use std::{fmt, io};
use tdcall::decode;

// The number of a level, which is printed by the size of the level's pages.
#[derive(Clone, Copy, Debug)]
struct LevelNumber(u8);

impl fmt::Display for LevelNumber {
    ghost output = { λ l. Some (level_name l.0) };

    fn fmt<W: fmt::Write>(&self, f: &mut fmt::Formatter<W>) -> fmt::Result {
        match PageLevel::try_from(self.0) {
            Ok(level) => write!(f, "{level}"),
            Err(_) => f.write_str("no"),
        }
    }
}

fn reply_name(status: u64) -> &'static str
    ensures { result.now ≡ reply_name (decoded status) }
{
    match decode(status) {
        Ok(()) => "accepted",
        Err(error) => error.name(),
    }
}

fn pages_word(count: usize) -> &'static str
    ensures { result.now ≡ pages_word count }
{
    if count == 1 { "page " } else { "pages" }
}

// The pages of a map, a line for each run of equal ones.
pub(crate) fn print_pages(rt: &HostRuntime, base: u64, bytes: &[u8]) -> io::Result<()> {
    let mut address = base;
    for run in Runs::new(bytes) {
        let count = run.len();
        let word = pages_word(count);
        let page = MapPage::from(run[0]);
        println!(rt; "  {address:#012x}  {count:>6} {word}  {page}")?;
        address = address.saturating_add((count as u64).saturating_mul(4096));
    }
    Ok(())
}

// Requests with their replies, a line for each run of them.
pub(crate) fn print_exchanges(rt: &HostRuntime, exchanges: &[Exchange]) -> io::Result<()> {
    for run in Runs::new(exchanges) {
        let count = run.len();
        let first = run[0];
        let level = LevelNumber(first.block.level);
        let address = first.block.address;
        let reply = reply_name(first.status);
        println!(rt; "  {count:>6} x {level} from {address:#012x}: {reply}")?;
    }
    Ok(())
}

// What a walk answered: its count, or its fault with every place.
pub(crate) fn print_answer(rt: &HostRuntime, answer: Result<u64, Fault>) -> io::Result<()> {
    match answer {
        Ok(count) => println!(rt; "answer: {count} requests, every page of the span is accepted"),
        Err(fault) => println!(rt; "answer: {fault}"),
    }
}
