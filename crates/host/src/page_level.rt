// The levels of a mapping, by the size of their pages.
ghost use Rattle.host.specs.Levels.{Numbers, level_number, no_level_text, size_name};
ghost use Rattle.host.specs.Pages.{size};
ghost use Rattle.std.specs.Prelude.{◌≡◌, ◌^◌, Some};

use std::error::Error;
use std::fmt;

#[derive(Clone, Copy, Debug, PartialEq, Eq, PartialOrd, Ord)]
pub enum PageLevel {
    L1_4K = 0,
    L2_2M = 1,
    L3_1G = 2,
}

// A number that is that of no level.
#[derive(Clone, Copy, Debug, PartialEq, Eq)]
pub struct NoPageLevel(pub u8);

impl fmt::Display for NoPageLevel {
    ghost output = { λ e. Some (no_level_text e.0) };

    fn fmt<W: fmt::Write>(&self, f: &mut fmt::Formatter<W>) -> fmt::Result {
        write!(f, "no level has the number {}", self.0)
    }
}

impl Error for NoPageLevel {}

// The level that a number tells, from 0 for 4 KiB.
impl TryFrom<u8> for PageLevel {
    type Error = NoPageLevel;

    ghost try_from_gives = { Numbers };

    fn try_from(number: u8) -> Result<PageLevel, NoPageLevel> {
        match number {
            0 => Ok(PageLevel::L1_4K),
            1 => Ok(PageLevel::L2_2M),
            2 => Ok(PageLevel::L3_1G),
            _ => Err(NoPageLevel(number)),
        }
    }
}

impl PageLevel {
    // The levels in the order in which a walk tries them.
    pub const PRIORITIES: [PageLevel; 3] = [PageLevel::L3_1G, PageLevel::L2_2M, PageLevel::L1_4K];

    // The level's number, from 0 for 4 KiB.
    pub fn number(self) -> u8
        ensures { result ≡ level_number self }
    {
        self as u8
    }

    // How many pages of 4096 addresses a block of the level has.
    pub fn pages(self) -> u64
        ensures { result ≡ 512 ^ level_number self }
    {
        match self {
            PageLevel::L1_4K => 1,
            PageLevel::L2_2M => 512,
            PageLevel::L3_1G => 512 * 512,
        }
    }

    // The size of the level's blocks.
    pub fn bytes(self) -> u64
        ensures { result ≡ size (level_number self) }
    {
        4096 * self.pages()
    }
}

// A level is printed by the size of its pages.
impl fmt::Display for PageLevel {
    ghost output = { λ l. Some (size_name l) };

    ghost styled_output = { λ l _. Some (size_name l) };

    fn fmt<W: fmt::Write>(&self, f: &mut fmt::Formatter<W>) -> fmt::Result {
        f.write_str(match self {
            PageLevel::L1_4K => "4 KiB",
            PageLevel::L2_2M => "2 MiB",
            PageLevel::L3_1G => "1 GiB",
        })
    }
}
