// A header in the first three words of an image.
ghost use Rattle.std.specs.Prelude.{◌≡◌};
ghost use Rattle.efi_table.specs.Images.{after_write, decoded_from, header_in, image_checked, write_answer, written};
ghost use Rattle.efi_table.specs.Laws.{RoundTrips};
ghost use Rattle.efi_table.specs.Shapes.{IsHeader};

use super::{Header, VERSION};
use crate::layout::WORD_BYTES;
use fault::AcceptError;

// Word 0 has the version below this place, and the unit size from it on.
const UNIT_PLACE: u64 = 0x1_0000_0000;

impl Header {
    // The header that an image holds.
    pub fn read(image: &[u64]) -> Result<Header, AcceptError>
        ensures header { result ≡ header_in image.now }
        ensures trips { RoundTrips }
    {
        Header::read_placed(true, image)
    }

    // The header that an image holds, where it is known whether a table may lie at the image's place. A table at a place
    // where none may lie is refused like one whose bitmap has a bad length.
    pub fn read_placed(placed: bool, image: &[u64]) -> Result<Header, AcceptError>
        ensures { result ≡ decoded_from placed image.now }
    {
        let &[first, base, length, ..] = image else {
            return Err(AcceptError::WrongImage);
        };
        if first % UNIT_PLACE != u64::from(VERSION) {
            return Err(AcceptError::BadVersion);
        }
        let unit = (first / UNIT_PLACE) as u32;
        if !unit.is_power_of_two() {
            return Err(AcceptError::BadUnit);
        }
        if !placed || length == 0 || !length.is_multiple_of(WORD_BYTES) {
            return Err(AcceptError::BadBitmap);
        }
        Header::new(unit, base, length).ok_or(AcceptError::BadCoverage)
    }

    // The words of the header in an image.
    fn words(&self) -> [u64; 3]
        ensures words { result ≡ written self.now }
        ensures header { IsHeader self.now }
    {
        let first = u64::from(VERSION) + u64::from(self.unit) * UNIT_PLACE;
        [first, self.base, self.length]
    }

    // Writes the header into an image; refuses one that is under three words.
    pub fn write(&self, image: &mut [u64]) -> Result<(), AcceptError>
        ensures answer { result ≡ write_answer image.old }
        ensures image { image.new ≡ after_write self.now image.old }
        ensures header { IsHeader self.now }
    {
        let words = self.words();
        let Some(head) = image.first_chunk_mut::<3>() else {
            return Err(AcceptError::WrongImage);
        };
        *head = words;
        Ok(())
    }

    // Refuses an image that is not the table's: one under three words, with other words 0 to 2, or with the bitmap cut off.
    pub fn check_image(&self, image: &[u64]) -> Result<(), AcceptError>
        ensures answer { result ≡ image_checked self.now image.now }
        ensures header { IsHeader self.now }
    {
        if !image.starts_with(&self.words()) || image.len() < self.bitmap_end() {
            return Err(AcceptError::WrongImage);
        }
        Ok(())
    }
}
