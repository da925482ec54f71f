// The table's format by examples, at its limits.
ghost use Rattle.efi_entries.specs.Entries.{found};
ghost use Rattle.efi_table.specs.Layouts.{building, size_asked};
ghost use Rattle.cases.specs.Rows.{length_in, numbered};
ghost use Rattle.std.specs.Prelude.{◌≡◌};

use efi_entries::find;
use efi_table::header::Header;
use efi_table::layout::{Range, required_size_for_range};

// The size of a table for a coverage, or the number of the refusal.
pub fn size_row(start: u64, end: u64) -> Result<usize, u8>
    ensures { result ≡ numbered (size_asked start end) }
{
    required_size_for_range(Range { start, end }).map_err(|error| error.number())
}

// The length of the bitmap that building makes, or the number of the refusal.
pub fn build_row(start: u64, end: u64, held: usize) -> Result<u64, u8>
    ensures { result ≡ length_in (building start end held) }
{
    Header::for_coverage(Range { start, end }, held)
        .map(|header| header.bitmap_size_bytes())
        .map_err(|error| error.number())
}

// The length of the bitmap of the table that is found, or the number of the refusal.
pub fn find_row(entries: &[u8], image: &[u64]) -> Result<u64, u8>
    ensures { result ≡ length_in (found entries.now image.now) }
{
    find(entries, image)
        .map(|header| header.bitmap_size_bytes())
        .map_err(|error| error.number())
}

#[cfg(test)]
mod tests {
    use super::*;

    const SIZES: [(u64, u64, Result<usize, u8>); 6] = [
        (0x4000_0000, 0x4800_0000, Ok(32)),
        (0x4000_0000, 0x4800_0001, Ok(40)),
        (0x5000, 0x5000, Err(2)),
        (u64::MAX, 0, Err(2)),
        (0, 0xFFFF_FFFF_FFE0_0000, Ok(0x100_0000_0018)),
        (0, 0xFFFF_FFFF_FFE0_0001, Err(4)),
    ];

    const BUILDS: [(u64, u64, usize, Result<u64, u8>); 5] = [
        (0xFFFF_FFFF_FFC0_0000, 0xFFFF_FFFF_FFE0_0000, 4, Err(4)),
        (0xFFFF_FFFF_F7E0_0000, 0xFFFF_FFFF_F800_0000, 4, Ok(8)),
        (0xFFFF_FFFF_F7E0_0000, 0xFFFF_FFFF_F800_0000, 3, Err(2)),
        (0x4000_0000, 0x4000_0000, 4, Err(2)),
        (0x4000_0000, 0x4800_0001, 5, Ok(16)),
    ];

    // entries of the table at 0x1000, at 0x2001, and at null
    const AT_1000: [u8; 24] = [
        0x3C, 0xDE, 0xD1, 0xD5, 0x5C, 0x10, 0xF9, 0x44, 0x9E, 0xA9, 0xBC, 0xEF, 0x98, 0x12, 0,
        0x31, 0, 0x10, 0, 0, 0, 0, 0, 0,
    ];

    const AT_2001: [u8; 24] = [
        0x3C, 0xDE, 0xD1, 0xD5, 0x5C, 0x10, 0xF9, 0x44, 0x9E, 0xA9, 0xBC, 0xEF, 0x98, 0x12, 0,
        0x31, 1, 0x20, 0, 0, 0, 0, 0, 0,
    ];

    const AT_NULL: [u8; 24] = [
        0x3C, 0xDE, 0xD1, 0xD5, 0x5C, 0x10, 0xF9, 0x44, 0x9E, 0xA9, 0xBC, 0xEF, 0x98, 0x12, 0,
        0x31, 0, 0, 0, 0, 0, 0, 0, 0,
    ];

    #[test]
    fn sizes(rt: HostRuntime) {
        for (start, end, want) in SIZES {
            assert_eq!(rt; size_row(start, end), want);
        }
    }

    #[test]
    fn builds(rt: HostRuntime) {
        for (start, end, held, want) in BUILDS {
            assert_eq!(rt; build_row(start, end, held), want);
        }
    }

    #[test]
    fn finds(rt: HostRuntime) {
        let first = 0x0020_0000_0000_0001;
        let base = 0x4000_0000;
        assert_eq!(rt; find_row(&AT_1000, &[first, base, 8, 0]), Ok(8));
        assert_eq!(rt; find_row(&AT_1000[..23], &[first, base, 8, 0]), Err(7));
        assert_eq!(rt; find_row(&AT_NULL, &[first, base, 8, 0]), Err(8));
        assert_eq!(rt; find_row(&[], &[first, base, 8, 0]), Err(8));
        assert_eq!(rt; find_row(&AT_1000, &[first, base]), Err(6));
        assert_eq!(rt; find_row(&AT_2001, &[first + 1, base, 8, 0]), Err(9));
        assert_eq!(rt;
            find_row(&AT_2001, &[0x0030_0000_0000_0001, base, 8, 0]),
            Err(10)
        );
        assert_eq!(rt; find_row(&AT_2001, &[first, u64::MAX, 8, 0]), Err(11));
        assert_eq!(rt; find_row(&AT_1000, &[first, base, 12, 0]), Err(11));
        assert_eq!(rt;
            find_row(&AT_1000, &[first, 0xFFFF_FFFF_F800_0000, 8, 0]),
            Err(12)
        );
        assert_eq!(rt; find_row(&AT_1000, &[first, base, 16, 0]), Err(6));
    }
}
