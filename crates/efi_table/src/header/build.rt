// The header of a table that is to be built.
ghost use Rattle.std.specs.Prelude.{◌≡◌};
ghost use Rattle.efi_table.specs.Layouts.{building};

use super::Header;
use crate::layout::{Range, UNIT_SIZE, WORD_BYTES, align_down, bitmap_words};
use fault::AcceptError;

impl Header {
    // The header of a table for a coverage, in an image of some words.
    pub fn for_coverage(coverage: Range, held: usize) -> Result<Header, AcceptError>
        ensures { result ≡ building coverage.start coverage.end held }
    {
        let length = WORD_BYTES * bitmap_words(coverage)?;
        let base = align_down(coverage.start, UNIT_SIZE);
        let unit = UNIT_SIZE as u32;
        let header = Header::new(unit, base, length).ok_or(AcceptError::ArithmeticOverflow)?;
        if held < header.bitmap_end() {
            return Err(AcceptError::OutOfBounds);
        }
        Ok(header)
    }
}
