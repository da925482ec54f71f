// Bitmaps by examples, at the edges of words: units 0, 63, 64 and 65, words of all ones and of all zeros, no words at all.
ghost use Rattle.std.specs.Prelude.{◌≡◌};

// What two words hold from `start` to `end` - 1: the first mark and the first gap.
#[derive(Clone, Copy, Debug, PartialEq, Eq)]
pub struct SearchCase {
    pub words: [u64; 2],
    pub start: u64,
    pub end: u64,
    pub mark: Option<u64>,
    pub gap: Option<u64>,
}

// Two words, and what they are once the units from `start` to `end` - 1 were set, or cleared.
#[derive(Clone, Copy, Debug, PartialEq, Eq)]
pub struct UpdateCase {
    pub words: [u64; 2],
    pub start: u64,
    pub end: u64,
    pub set: [u64; 2],
    pub cleared: [u64; 2],
}

// A row of the first table.
pub fn search(
    words: [u64; 2],
    start: u64,
    end: u64,
    mark: Option<u64>,
    gap: Option<u64>,
) -> SearchCase
    ensures { result ≡ record { words = words; start = start; end = end; mark = mark; gap = gap } }
{
    SearchCase {
        words,
        start,
        end,
        mark,
        gap,
    }
}

// A row of the second table.
pub fn update(words: [u64; 2], start: u64, end: u64, set: [u64; 2], cleared: [u64; 2]) -> UpdateCase
    ensures { result ≡ record { words = words; start = start; end = end; set = set; cleared = cleared } }
{
    UpdateCase {
        words,
        start,
        end,
        set,
        cleared,
    }
}

#[cfg(test)]
mod tests {
    use super::{search, update};
    use bitmap::BitmapRef;

    const ONES: u64 = u64::MAX;

    const TOP: u64 = 0x8000_0000_0000_0000;

    #[test]
    fn searches(rt: HostRuntime) {
        let cases = [
            search([0, 0], 0, 128, None, Some(0)),
            search([ONES, ONES], 0, 128, Some(0), None),
            search([ONES, ONES], 0, ONES, Some(0), None),
            search([ONES, 0], 1, 128, Some(1), Some(64)),
            search([0, ONES], 0, 128, Some(64), Some(0)),
            search([TOP, 0], 0, 64, Some(63), Some(0)),
            search([TOP, 0], 0, 63, None, Some(0)),
            search([TOP, 0], 63, 64, Some(63), None),
            search([TOP, 1], 64, 65, Some(64), None),
            search([0, 1], 63, 64, None, Some(63)),
            search([0, 2], 0, 65, None, Some(0)),
            search([0, 2], 0, 66, Some(65), Some(0)),
            search([ONES, 0x6E], 64, 128, Some(65), Some(64)),
            search([ONES, 0x6E], 66, 128, Some(66), Some(68)),
            search([0, TOP], 0, ONES, Some(127), Some(0)),
            search([ONES, TOP], 127, ONES, Some(127), None),
            search([ONES, ONES], 128, ONES, None, None),
            search([ONES, ONES], 5, 5, None, None),
            search([ONES, ONES], 6, 5, None, None),
            search([0, 0], 70, 65, None, None),
        ];
        for case in cases {
            let bits = BitmapRef::new(&case.words);
            assert_eq!(rt; bits.find_next_set(case.start, case.end), case.mark);
            assert_eq!(rt; bits.find_next_zero(case.start, case.end), case.gap);
            assert_eq!(rt; bits.has_set_bit(case.start, case.end), case.mark.is_some());
        }
    }

    #[test]
    fn updates(rt: HostRuntime) {
        let cases = [
            update([0, 0], 0, 0, [0, 0], [0, 0]),
            update([0, 0], 0, 1, [1, 0], [0, 0]),
            update([0, 0], 63, 64, [TOP, 0], [0, 0]),
            update([0, 0], 64, 65, [0, 1], [0, 0]),
            update([0, 0], 63, 65, [TOP, 1], [0, 0]),
            update([0, 0], 0, 64, [ONES, 0], [0, 0]),
            update([0, 0], 0, 128, [ONES, ONES], [0, 0]),
            update([0, 0], 127, ONES, [0, TOP], [0, 0]),
            update([0, 0], 128, ONES, [0, 0], [0, 0]),
            update([ONES, ONES], 0, 1, [ONES, ONES], [ONES - 1, ONES]),
            update([ONES, ONES], 63, 65, [ONES, ONES], [ONES - TOP, ONES - 1]),
            update([ONES, ONES], 64, ONES, [ONES, ONES], [ONES, 0]),
            update([ONES, ONES], 65, 127, [ONES, ONES], [ONES, TOP + 1]),
            update([ONES, ONES], 9, 9, [ONES, ONES], [ONES, ONES]),
            update([ONES, ONES], 70, 65, [ONES, ONES], [ONES, ONES]),
            update([0x6E, 0], 1, 4, [0x6E, 0], [0x60, 0]),
            update([0x6E, 0], 4, 5, [0x7E, 0], [0x6E, 0]),
        ];
        for case in cases {
            let mut words = case.words;
            bitmap::set_range(&mut words, case.start, case.end);
            assert_eq!(rt; words, case.set);
            words = case.words;
            bitmap::clear_range(&mut words, case.start, case.end);
            assert_eq!(rt; words, case.cleared);
        }
    }

    #[test]
    fn counts(rt: HostRuntime) {
        let none: [u64; 0] = [];
        let bits = BitmapRef::new(&none);
        assert_eq!(rt; bits.capacity(), 0);
        assert_eq!(rt; bits.pending_unit_count(), 0);
        assert_eq!(rt; bits.find_next_set(0, ONES), None);
        assert_eq!(rt; bits.find_next_zero(0, ONES), None);
        let mut words = [ONES, 0, TOP, 0x6E];
        assert_eq!(rt; BitmapRef::new(&words).words().len(), 4);
        assert_eq!(rt; BitmapRef::new(&words).capacity(), 256);
        assert_eq!(rt; BitmapRef::new(&words).pending_unit_count(), 70);
        bitmap::clear_all(&mut words);
        assert_eq!(rt; words, [0; 4]);
        assert_eq!(rt; BitmapRef::new(&words).pending_unit_count(), 0);
    }

    // Words 1 and 2 of four are the bitmap.
    #[test]
    fn parts(rt: HostRuntime) {
        let mut image = [7, 0, 0, 7];
        bitmap::set_range_in(&mut image, 1..3, 63, ONES);
        assert_eq!(rt; image, [7, TOP, ONES, 7]);
        bitmap::clear_range_in(&mut image, 1..3, 0, 65);
        assert_eq!(rt; image, [7, 0, ONES - 1, 7]);
        bitmap::set_range_in(&mut image, 3..1, 0, ONES);
        bitmap::set_range_in(&mut image, 3..5, 0, ONES);
        bitmap::clear_range_in(&mut image, 2..5, 0, ONES);
        bitmap::clear_range_in(&mut image, 2..2, 0, ONES);
        assert_eq!(rt; image, [7, 0, ONES - 1, 7]);
    }
}
