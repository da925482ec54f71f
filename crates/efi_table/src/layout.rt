// How large a table is: ranges of addresses, their coverage, and the words of a bitmap for it.
ghost use Rattle.std.specs.Prelude.{◌≡◌, ◌-◌, ◌^◌, nat_le};
ghost use Rattle.efi_table.specs.Layouts.{address_up, aligned_down, coverage_of, covering, size_asked, size_over, words_asked};
ghost use Rattle.efi_table.specs.Laws.{Builds, Coverages};

use fault::AcceptError;

// The addresses from start up to the one before end.
#[derive(Clone, Copy, Debug, PartialEq, Eq)]
pub struct Range {
    pub start: u64,
    pub end: u64,
}

impl Range {
    // Has the range no address?
    pub(crate) fn is_empty(self) -> bool
        ensures { result ≡ nat_le self.end self.start }
    {
        self.end <= self.start
    }
}

// The bits of a byte: a byte of a bitmap has the marks of as many units.
pub(crate) const BYTE_BITS: u64 = 8;

// The bytes of a word.
pub(crate) const WORD_BYTES: u64 = 8;

// The words of a header, which lie before the bitmap.
pub(crate) const HEADER_WORDS: u64 = 3;

// The bytes of a header.
pub const HEADER_SIZE: u64 = HEADER_WORDS * WORD_BYTES;

// The unit size of a table that is built.
pub const UNIT_SIZE: u64 = 0x20_0000;

// The highest end that can be rounded up to a unit.
const HIGHEST_END: u64 = 0xFFFF_FFFF_FFE0_0000;

// The most ranges that a list may have.
const MOST_RANGES: usize = 1024;

// The highest multiple of a number that is not above an address. Only 0 is a multiple of 0.
pub fn align_down(address: u64, align: u64) -> u64
    ensures { result ≡ aligned_down address align }
{
    if align == 0 {
        return 0;
    }
    address - address % align
}

// The lowest multiple of a number that is not below an address; none for 0, or if that multiple is 2^64 or more.
pub fn align_up(address: u64, align: u64) -> Option<u64>
    ensures { result ≡ address_up address align }
{
    address.checked_next_multiple_of(align)
}

// The lowest start and the highest end of ranges, of which none may be empty.
fn covering_range(ranges: &[Range]) -> Result<Range, AcceptError>
    ensures { result ≡ covering (2 ^ 64 - 1) 0 ranges.now }
{
    let mut covered = Range {
        start: u64::MAX,
        end: 0,
    };
    for range in ranges {
        if range.is_empty() {
            return Err(AcceptError::OutOfBounds);
        }
        covered.start = covered.start.min(range.start);
        covered.end = covered.end.max(range.end);
    }
    Ok(covered)
}

// The lowest start and the highest end of the ranges of a list. Refuses a list without ranges, with too many, or with an
// empty one.
#[tactic(auto, using(crate::proofs::Coverages::coverages))]
pub fn min_max_from_ranges(ranges: &[Range]) -> Result<Range, AcceptError>
    ensures coverage { result ≡ coverage_of ranges.now }
    ensures covers { Coverages ranges.now }
{
    if ranges.is_empty() || ranges.len() > MOST_RANGES {
        return Err(AcceptError::OutOfBounds);
    }
    covering_range(ranges)
}

// The words of a bitmap for a coverage whose ends are rounded outward to units.
pub(crate) fn bitmap_words(coverage: Range) -> Result<u64, AcceptError>
    ensures { result ≡ words_asked coverage.start coverage.end }
{
    if coverage.is_empty() {
        return Err(AcceptError::OutOfBounds);
    }
    if coverage.end > HIGHEST_END {
        return Err(AcceptError::ArithmeticOverflow);
    }
    let end = coverage.end.next_multiple_of(UNIT_SIZE);
    let units = (end - align_down(coverage.start, UNIT_SIZE)) / UNIT_SIZE;
    Ok(units.div_ceil(WORD_BYTES * BYTE_BITS))
}

// The bytes of the image of a table for a coverage.
pub fn required_size_for_range(coverage: Range) -> Result<usize, AcceptError>
    ensures size { result ≡ size_asked coverage.start coverage.end }
    ensures least { Builds }
{
    let words = bitmap_words(coverage)?;
    Ok((HEADER_SIZE + WORD_BYTES * words) as usize)
}

// The bytes of the image of a table for a list of ranges.
pub fn required_size(ranges: &[Range]) -> Result<usize, AcceptError>
    ensures { result ≡ size_over (coverage_of ranges.now) }
{
    required_size_for_range(min_max_from_ranges(ranges)?)
}
