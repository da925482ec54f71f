// What a header says, by the names of the table's fields.
ghost use Rattle.std.specs.Prelude.{◌≡◌};
ghost use Rattle.efi_table.specs.Layouts.{range};
ghost use Rattle.efi_table.specs.Shapes.{IsHeader, bitmap_end, covered_end, size_of, units_of};

use super::{Header, VERSION};
use crate::layout::{BYTE_BITS, HEADER_WORDS, Range, WORD_BYTES};

impl Header {
    pub fn version(&self) -> u32
        ensures { result ≡ 1 }
    {
        VERSION
    }

    pub fn unit_size_bytes(&self) -> u32
        ensures unit { result ≡ self.now.unit }
        ensures header { IsHeader self.now }
    {
        self.unit
    }

    pub fn phys_base(&self) -> u64
        ensures base { result ≡ self.now.base }
        ensures header { IsHeader self.now }
    {
        self.base
    }

    pub fn bitmap_size_bytes(&self) -> u64
        ensures bytes { result ≡ self.now.length }
        ensures header { IsHeader self.now }
    {
        self.length
    }

    // The word of the image behind the bitmap, which begins behind the header.
    pub fn bitmap_end(&self) -> usize
        ensures end { result ≡ bitmap_end self.now }
        ensures header { IsHeader self.now }
    {
        (HEADER_WORDS + self.length / WORD_BYTES) as usize
    }

    // How many units the table has.
    pub fn total_bits(&self) -> u64
        ensures units { result ≡ units_of self.now }
        ensures header { IsHeader self.now }
    {
        BYTE_BITS * self.length
    }

    // How many addresses its units hold.
    pub fn coverage_size(&self) -> u64
        ensures size { result ≡ size_of self.now }
        ensures header { IsHeader self.now }
    {
        self.total_bits() * u64::from(self.unit)
    }

    // The addresses that its units hold.
    pub fn coverage_range(&self) -> Range
        ensures range { result ≡ range self.now.base (covered_end self.now) }
        ensures header { IsHeader self.now }
    {
        let end = self.base + self.coverage_size();
        Range {
            start: self.base,
            end,
        }
    }
}
