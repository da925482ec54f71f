// A map of pages over the caller's bytes: one byte a page, 0 absent, 1, 2, 3 pending and mapped at level 0, 1, 2, 4 accepted;
// any other reads as 0.
ghost use Rattle.std.specs.Prelude.{◌≡◌, ℕ, ◌+◌, ◌-◌, ◌*◌, ◌/◌, ◌%◌, ◌^◌, ◌<◌, ◌≤◌, ◌&&◌, length, min, replicate, Some, if◌then◌else◌, nat_le, nat_lt, slice_index};
ghost use Rattle.host.specs.Levels.{level_number};
ghost use Rattle.host.specs.Pages.{accepting};
ghost use Rattle.host_models.proofs.Map.{map_sounds};
ghost use Rattle.host_models.specs.Map.{map_next, map_reply, map_state};
ghost use Rattle.hosts.specs.Blocks.{block_bytes};
ghost use Rattle.hosts.specs.Checks.{checked_shape};
ghost use Rattle.hosts.specs.MapPages.{error_for, highest, map_page, obstacle_to, page_byte, page_name, rank};
ghost use Rattle.tdcall.specs.Statuses.{encoded};

use fault::AcceptError;
use host::page_level::PageLevel;
use host::{Block, Host};
use std::fmt;
use std::marker::Model;
use std::ops::Range;
use tdcall::{TdCallError, encode};

const ACCEPTED: u8 = 4;

// What a byte says of its page.
#[derive(Clone, Copy, Debug, PartialEq, Eq)]
pub enum MapPage {
    Absent,
    // Pending, and mapped at a level.
    Pending(PageLevel),
    Accepted,
}

impl From<u8> for MapPage {
    ghost from_gives = { λ b r. r ≡ map_page b };

    fn from(byte: u8) -> MapPage {
        match byte {
            1 => MapPage::Pending(PageLevel::L1_4K),
            2 => MapPage::Pending(PageLevel::L2_2M),
            3 => MapPage::Pending(PageLevel::L3_1G),
            ACCEPTED => MapPage::Accepted,
            _ => MapPage::Absent,
        }
    }
}

// The byte that says a page.
impl From<MapPage> for u8 {
    ghost from_gives = { λ p r. (r ≡ page_byte p) × (map_page r ≡ p) };

    fn from(page: MapPage) -> u8 {
        match page {
            MapPage::Absent => 0,
            MapPage::Pending(level) => level.number() + 1,
            MapPage::Accepted => ACCEPTED,
        }
    }
}

// A page is printed by its state, a pending one with the size that it is mapped at.
impl fmt::Display for MapPage {
    ghost output = { λ p. Some (page_name p) };

    fn fmt<W: fmt::Write>(&self, f: &mut fmt::Formatter<W>) -> fmt::Result {
        match self {
            MapPage::Absent => f.write_str("absent"),
            MapPage::Pending(level) => write!(f, "pending, mapped at {level}"),
            MapPage::Accepted => f.write_str("accepted"),
        }
    }
}

// What stands in the way of accepting a page; of several in a block, the highest gives the reply.
#[derive(Clone, Copy, Debug, PartialEq, Eq, PartialOrd, Ord)]
enum Obstacle {
    // It is mapped below the level.
    MappedSmaller,
    Accepted,
    Absent,
}

// The error that tells an obstacle.
impl From<Obstacle> for TdCallError {
    ghost from_gives = { λ o r. r ≡ error_for o };

    fn from(obstacle: Obstacle) -> TdCallError {
        match obstacle {
            Obstacle::MappedSmaller => TdCallError::TdxPageSizeMismatch,
            Obstacle::Accepted => TdCallError::TdxPageAlreadyAccepted,
            Obstacle::Absent => TdCallError::TdxOperandAddrRangeError,
        }
    }
}

// What stands in the way of accepting the page of a byte at a level.
fn obstacle_at(byte: u8, level: PageLevel) -> Option<Obstacle>
    ensures { result ≡ obstacle_to (level_number level) (map_page byte) }
{
    match byte {
        ACCEPTED => Some(Obstacle::Accepted),
        1..=3 if byte <= level.number() => Some(Obstacle::MappedSmaller),
        1..=3 => None,
        0 | 5.. => Some(Obstacle::Absent),
    }
}

// Where a map lies: its first address, a multiple of 4096, and how many pages it has, with its end below 2^64.
#[derive(Clone, Copy, Debug, PartialEq, Eq)]
pub struct MapShape {
    base: u64,
    count: u64,
}

// Clauses see the two numbers.
impl Model for MapShape {
    ghost use Rattle.std.specs.Prelude.{◌≡◌, ◌+◌, ◌*◌, ◌%◌, ◌^◌, ◌<◌};
    ghost use Rattle.hosts.specs.Checks.{Extent};

    ghost Value = { Extent };

    ghost view = { λ s. record { base = s.base; count = s.count } };

    ghost invariant = { λ s. (s.base % 4096 ≡ 0) × (s.base + 4096 * s.count < 2 ^ 64) };

    ghost inverse = { λ e. record { base = e.base; count = e.count } };
}

impl MapShape {
    // Refuses a base that is no multiple of 4096, and an end of 2^64 or more.
    pub fn new(base: u64, count: u64) -> Result<MapShape, AcceptError>
        ensures { result ≡ checked_shape base count }
    {
        if base % 4096 != 0 || count > (u64::MAX - base) / 4096 {
            return Err(AcceptError::BadHost);
        }
        Ok(MapShape { base, count })
    }
}

#[derive(Debug, Drop)]
pub struct MapHost<'a> {
    // the number of the first page
    first: u64,
    count: u64,
    pages: &'a mut [u8],
}

impl<'a> MapHost<'a> {
    // The map of a checked shape over the caller's bytes. It has the pages that both give it: bytes behind the shape's pages
    // never change, and a page that has no byte is absent.
    pub fn new(shape: MapShape, pages: &'a mut [u8]) -> MapHost<'a>
        ensures map { result ≡ record { first = shape.base / 4096; count = shape.count; pages = pages.entry } }
        ensures shape { (shape.base % 4096 ≡ 0) × (shape.base + 4096 * shape.count < 2 ^ 64) }
    {
        MapHost {
            first: shape.base / 4096,
            count: shape.count,
            pages,
        }
    }

    // The bytes as they are now.
    pub fn bytes(&self) -> &[u8]
        ensures { result.now ≡ self.now.pages.now }
    {
        self.pages
    }
}

// The first byte of a block and the byte behind its last, or none if a page of the block is outside the map.
fn block_bytes(first: u64, count: u64, held: usize, page: u64, span: u64) -> Option<Range<usize>>
    requires { span ≤ 262144 }
    ensures { result ≡ block_bytes first count held page span }
{
    let end = count.min(held as u64);
    if page < first || end < span || end - span < page - first {
        return None;
    }
    let from = (page - first) as usize;
    Some(from..from + span as usize)
}

// The place of an obstacle in their order; 0 is none.
fn rank(obstacle: Option<Obstacle>) -> u8
    ensures { result ≡ rank obstacle }
{
    match obstacle {
        None => 0,
        Some(Obstacle::MappedSmaller) => 1,
        Some(Obstacle::Accepted) => 2,
        Some(Obstacle::Absent) => 3,
    }
}

// The obstacle at a place in their order.
fn ranked(place: u8) -> Option<Obstacle>
    ensures { rank result ≡ min place 3 }
{
    match place {
        0 => None,
        1 => Some(Obstacle::MappedSmaller),
        2 => Some(Obstacle::Accepted),
        _ => Some(Obstacle::Absent),
    }
}

// The highest obstacle among the pages of some bytes. The highest of the numbers of obstacles, told by bytes, is found many
// bytes at a time; that of options, told by `MapPage`, is not.
fn highest_obstacle(bytes: &[u8], level: PageLevel) -> Option<Obstacle>
    ensures { rank result ≡ highest (level_number level) bytes.now 0 (length bytes.now) }
{
    let mut most: u8 = 0;
    for byte in bytes {
        most = most.max(rank(obstacle_at(*byte, level)));
    }
    ranked(most)
}

// Makes the bytes accepted.
fn accept_bytes(bytes: &mut [u8])
    ensures { bytes.new ≡ replicate (length bytes.old) 4 }
{
    bytes.fill(ACCEPTED);
}

// Accepts a block on the bytes of a map, or refuses it and changes none.
fn accept_in_map(first: u64, count: u64, bytes: &mut [u8], block: Block) -> Result<(), TdCallError>
    ensures answer { encoded result ≡ map_reply first count bytes.old (accepting block.level block.address) }
    ensures bytes { bytes.new ≡ map_next first count bytes.old (accepting block.level block.address) }
{
    let Ok(level) = PageLevel::try_from(block.level) else {
        return Err(TdCallError::TdxOperandInvalid);
    };
    if block.address % level.bytes() != 0 {
        return Err(TdCallError::TdxOperandInvalid);
    }
    let page = block.address / 4096;
    let Some(places) = block_bytes(first, count, bytes.len(), page, level.pages()) else {
        return Err(TdCallError::TdxOperandAddrRangeError);
    };
    let part = &mut bytes[places];
    if let Some(obstacle) = highest_obstacle(part, level) {
        return Err(obstacle.into());
    }
    accept_bytes(part);
    Ok(())
}

impl Host for MapHost<'_> {
    ghost state = { λ s. map_state s.first s.count s.pages.ghost_name s.pages.now };

    ghost sound = { λ s. map_sounds s.first s.count s.pages.now };

    fn accept(&mut self, block: Block) -> u64 {
        encode(accept_in_map(self.first, self.count, self.pages, block))
    }
}
