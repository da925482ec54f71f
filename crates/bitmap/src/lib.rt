// Bitmaps: a mark for each unit of memory, in 64-bit words. Bit n of word w, the lowest being bit 0, is unit 64 * w + n.
//
// `BitmapRef` is a view for reading; what writes takes the words themselves, lent as `&mut`. A range of units has a start
// and an end, the unit behind its last. It is cut to the capacity, and one that is empty or lies behind it holds no unit.
#![tactic(auto)]

ghost use Rattle.std.specs.Prelude.{◌≡◌, ℕ, ◌+◌, ◌-◌, ◌*◌, ◌/◌, ◌^◌, ◌<◌, ◌≤◌, max, min, length, slice_set};
ghost use Rattle.bitmap.specs.Marks.{RangeWritten, capacity_of, gap, marked, unit_count, units_cleared, units_set, units_written, zeroed};
ghost use Rattle.bitmap.specs.Masks.{as_bit, bits_from, bits_of, matching, put, share};
ghost use Rattle.bitmap.specs.Parts.{PartMarks, part_written};
ghost use Rattle.bitmap.specs.Search.{FindsUnit, TellsUnit};
ghost use Rattle.bitmap.specs.Theorems.{ClearThenSet, FoundOnce, MarksTell, SetThenClear};
ghost use Rattle.std.specs.Int.{trailing_zeros, w64};

use std::ops::Range;

// The number of a unit.
pub type BitIndex = u64;

// A bitmap for reading.
#[derive(Clone, Copy, Debug, PartialEq, Eq)]
pub struct BitmapRef<'a> {
    bits: &'a [u64],
}

impl<'a> BitmapRef<'a> {
    ghost use Rattle.bitmap.specs.Views.{view_words};

    // The view of a slice of words.
    pub fn new(bits: &'a [u64]) -> Self
        ensures { view_words result ≡ bits.now }
    {
        BitmapRef { bits }
    }

    // The words of the view.
    pub fn words(&self) -> &'a [u64]
        ensures { result.now ≡ view_words self.now }
    {
        self.bits
    }

    // The number of units: 64 a word, or 2^64 - 1 if that is less.
    pub fn capacity(&self) -> u64
        ensures { result ≡ capacity_of (view_words self.now) }
    {
        (self.bits.len() as u64).saturating_mul(64)
    }

    // Is a unit from `start` to `end` - 1 marked?
    pub fn has_set_bit(&self, start: BitIndex, end: BitIndex) -> bool
        ensures { TellsUnit marked (view_words self.now) start end result }
    {
        self.find_next_set(start, end).is_some()
    }

    // The number of marks, or 2^64 - 1 if that is less.
    pub fn pending_unit_count(&self) -> u64
        ensures { result ≡ min (unit_count (view_words self.now)) (2 ^ 64 - 1) }
    {
        count_marks(self.bits)
    }

    // The first marked unit from `start` to `end` - 1. One answer alone is that.
    pub fn find_next_set(&self, start: BitIndex, end: BitIndex) -> Option<BitIndex>
        ensures found { FindsUnit marked (view_words self.now) start end result }
        ensures once { FoundOnce }
    {
        find_next_matching(self.bits, Units { start, end }, Mark::Set)
    }

    // The first unit from `start` to `end` - 1 that is not marked.
    pub fn find_next_zero(&self, start: BitIndex, end: BitIndex) -> Option<BitIndex>
        ensures { FindsUnit gap (view_words self.now) start end result }
    {
        find_next_matching(self.bits, Units { start, end }, Mark::Clear)
    }
}

// Marks the units from `start` to `end` - 1, as far as there are words for them. No other words have these marks, and
// clearing a range that had no mark before gives the words back.
#[tactic(auto, using(crate::proofs::MarkLaws::marks_tell, crate::proofs::MarkLaws::set_then_clear))]
pub fn set_range(words: &mut [u64], start: BitIndex, end: BitIndex)
    ensures after { words.new ≡ units_set words.old start end }
    ensures marks { RangeWritten 1 words.old words.new start end }
    ensures told { MarksTell }
    ensures undone { SetThenClear }
{
    update_range(words, Units { start, end }, Mark::Set);
}

// Clears the units from `start` to `end` - 1. Setting a range that had no gap before gives the words back.
#[tactic(auto, using(crate::proofs::MarkLaws::clear_then_set))]
pub fn clear_range(words: &mut [u64], start: BitIndex, end: BitIndex)
    ensures after { words.new ≡ units_cleared words.old start end }
    ensures marks { RangeWritten 0 words.old words.new start end }
    ensures undone { ClearThenSet }
{
    update_range(words, Units { start, end }, Mark::Clear);
}

// Clears every unit.
#[tactic(auto, using(crate::proofs::MarkLaws::marked_zeroed))]
pub fn clear_all(words: &mut [u64])
    ensures after { words.new ≡ zeroed words.old }
    ensures marks { (k : ℕ) → marked words.new k ≡ 0 }
{
    words.fill(0);
}

// Marks the units from `start` to `end` - 1 of the bitmap that is a part of the image's words. An image that has no such
// words is left as it is.
pub fn set_range_in(image: &mut [u64], part: Range<usize>, start: BitIndex, end: BitIndex)
    ensures after { image.new ≡ part_written 1 part.start part.end image.old start end }
    ensures marks { PartMarks 1 part.start part.end image.old image.new start end }
{
    update_range_in(image, part, Units { start, end }, Mark::Set);
}

// Clears the units from `start` to `end` - 1 of such a bitmap.
pub fn clear_range_in(image: &mut [u64], part: Range<usize>, start: BitIndex, end: BitIndex)
    ensures after { image.new ≡ part_written 0 part.start part.end image.old start end }
    ensures marks { PartMarks 0 part.start part.end image.old image.new start end }
{
    update_range_in(image, part, Units { start, end }, Mark::Clear);
}

// What a unit is: marked, its bit 1, or a gap, its bit 0.
#[derive(Clone, Copy, Debug, PartialEq, Eq)]
enum Mark {
    Set,
    Clear,
}

impl Mark {
    // The bits of a word that have the mark.
    fn bits_of(self, word: u64) -> u64
        ensures { result ≡ bits_of self word }
    {
        match self {
            Mark::Set => word,
            Mark::Clear => !word,
        }
    }

    // A word with the mark for the bits of a mask.
    fn put(self, word: u64, mask: u64) -> u64
        ensures { result ≡ put self word mask }
    {
        match self {
            Mark::Set => word | mask,
            Mark::Clear => word & !mask,
        }
    }
}

// The units from `start` to `end` - 1.
#[derive(Clone, Copy, Debug, PartialEq, Eq)]
struct Units {
    start: BitIndex,
    end: BitIndex,
}

impl Units {
    // Of `count` words, those that hold a unit of the range: none for an empty one.
    fn words(self, count: usize) -> Range<usize>
        ensures start { result.start ≡ self.start / 64 }
        ensures low { result.end ≤ min count ((self.end + 63) / 64) }
        ensures end { self.start < self.end → result.end ≡ min count ((self.end + 63) / 64) }
        ensures held { (w : ℕ) → result.start ≤ w → w < result.end → max self.start (64 * w) < min self.end (64 * w + 64) }
    {
        let end = if self.start < self.end { self.end } else { 0 };
        (self.start / 64) as usize..count.min(end.div_ceil(64) as usize)
    }

    // The bits of such a word that are units of the range.
    #[tactic(auto, unfolding(crate::specs::Masks::share))]
    fn share(self, w: usize) -> u64
        requires { (self.start < 64 * w + 64) × (64 * w < self.end) }
        ensures { result ≡ share self.start self.end w }
    {
        let base = 64 * w as u64;
        word_range_mask(self.start.saturating_sub(base), (self.end - base).min(64))
    }
}

// The number of marks, or 2^64 - 1 if that is less.
#[tactic(auto, using(crate::proofs::CountLaws::count_capped))]
fn count_marks(words: &[u64]) -> u64
    ensures { result ≡ min (unit_count words.now) (2 ^ 64 - 1) }
{
    words.iter().fold(0u64, |total, word| {
        total.saturating_add(u64::from(word.count_ones()))
    })
}

// The first unit of the range that has the mark.
#[tactic(auto, using(crate::proofs::MaskLaws::none_in_word))]
fn find_next_matching(words: &[u64], units: Units, mark: Mark) -> Option<BitIndex>
    ensures { FindsUnit (matching mark) words.now units.start units.end result }
{
    let mut places = units.words(words.len());
    loop {
        let w = places.next()?;
        let hits = mark.bits_of(words[w]) & units.share(w);
        if hits != 0 {
            break Some(lowest_unit(hits, w));
        }
    }
}

// Marks or clears the units of the range, as far as there are words for them.
fn update_range(words: &mut [u64], units: Units, mark: Mark)
    ensures after { words.new ≡ units_written (as_bit mark) words.old units.start units.end }
    ensures marks { RangeWritten (as_bit mark) words.old words.new units.start units.end }
{
    for w in units.words(words.len()) {
        let word = mark.put(words[w], units.share(w));
        store_word(words, w, word);
    }
}

// Marks or clears the units of the range of a part of an image.
#[tactic(auto, using(crate::proofs::PartLaws::part_marks, crate::proofs::PartLaws::lent, crate::proofs::MaskLaws::as_bit_lt))]
fn update_range_in(image: &mut [u64], part: Range<usize>, units: Units, mark: Mark)
    ensures after { image.new ≡ part_written (as_bit mark) part.start part.end image.old units.start units.end }
    ensures marks { PartMarks (as_bit mark) part.start part.end image.old image.new units.start units.end }
{
    if part.start <= part.end && part.end <= image.len() {
        update_range(&mut image[part], units, mark);
    }
}

// The unit of the lowest bit of word `w` that is set in `hits`.
fn lowest_unit(hits: u64, w: usize) -> BitIndex
    requires { (0 < hits) × (64 * w + 63 < 2 ^ 64) }
    ensures { result ≡ 64 * w + trailing_zeros w64 hits }
{
    64 * w as u64 + u64::from(hits.trailing_zeros())
}

// The word with bits `lo` to `hi` - 1 set.
#[tactic(auto, using(crate::proofs::MaskLaws::bits_by_shifts))]
fn word_range_mask(lo: u64, hi: u64) -> u64
    requires { (lo < 64) × ((0 < hi) × (hi ≤ 64)) }
    ensures { result ≡ bits_from lo hi }
{
    (u64::MAX << lo) & (u64::MAX >> (64 - hi))
}

// Every word that an update changes is stored here.
fn store_word(words: &mut [u64], w: usize, word: u64)
    requires { w < length words.old }
    ensures { words.new ≡ slice_set words.old w word }
{
    words[w] = word;
}
