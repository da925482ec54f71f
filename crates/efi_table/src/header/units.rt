// The units of a table: which ones a window of addresses touches, and which addresses they hold.
ghost use Rattle.std.specs.Prelude.{◌≡◌};
ghost use Rattle.efi_table.specs.Layouts.{units_range};
ghost use Rattle.efi_table.specs.Laws.{Overlaps};
ghost use Rattle.efi_table.specs.Shapes.{IsHeader, overlap_of, unit_address};

use super::Header;
use crate::layout::Range;

impl Header {
    // The units that the window from start to end touches, also in part: the first one, the one behind the last, and the
    // unit size; none for a window that touches no unit.
    pub fn overlapping_bit_range(&self, start: u64, end: u64) -> Option<(u64, u64, u64)>
        ensures numbers { result ≡ overlap_of self.now start end }
        ensures touched { Overlaps self.now start end result }
        ensures header { IsHeader self.now }
    {
        let unit = u64::from(self.unit);
        let coverage = self.coverage_range();
        let window = Range {
            start: start.max(coverage.start),
            end: end.min(coverage.end),
        };
        if window.is_empty() {
            return None;
        }
        let first = (window.start - self.base) / unit;
        let last = (window.end - self.base).div_ceil(unit);
        Some((first, last, unit))
    }

    // The address of a unit; a number past the last unit counts as the one behind it, which begins at the covered end.
    pub fn unit_address(&self, bit: u64) -> u64
        ensures address { result ≡ unit_address self.now bit }
        ensures header { IsHeader self.now }
    {
        let bit = bit.min(self.total_bits());
        self.base + bit * u64::from(self.unit)
    }

    // The addresses of the units from one to the one before another.
    pub fn units_range(&self, first: u64, last: u64) -> Range
        ensures range { result ≡ units_range self.now first last }
        ensures header { IsHeader self.now }
    {
        Range {
            start: self.unit_address(first),
            end: self.unit_address(last),
        }
    }
}
