// How a table is found: by the entries of UEFI's configuration table, and the image at the pointer of the matching one.
#![tactic(auto)]

ghost use Rattle.std.specs.Iterator.{YieldsFirst, item_count};
ghost use Rattle.std.specs.Prelude.{◌≡◌, ◌==◌};
ghost use Rattle.efi_entries.specs.Entries.{entries, found, may_lie, pointer_in, table_entry, table_guid};
ghost use Rattle.efi_entries.specs.Tables.{Finds};
ghost use Rattle.efi_table.specs.Laws.{Powers};

use efi_table::header::Header;
use efi_table::layout::HEADER_SIZE;
use fault::AcceptError;

// The GUID of the table, by the little-endian number of its bytes.
const TABLE_GUID: u128 = 0x3100_1298_EFBC_A99E_44F9_105C_D5D1_DE3C;

// The bytes of an entry.
const ENTRY_SIZE: usize = 24;

// An entry: the little-endian number of its GUID, and its pointer.
#[derive(Clone, Copy, Debug, PartialEq, Eq)]
struct Entry {
    guid: u128,
    pointer: u64,
}

impl Entry {
    // Is its GUID the table's?
    fn is_table(&self) -> bool
        ensures { result ≡ (self.now.guid == table_guid) }
    {
        self.guid == TABLE_GUID
    }
}

// Goes over the entries that bytes hold.
#[derive(Debug, Drop)]
struct Entries<'a>(&'a [u8]);

impl<'a> Iterator for Entries<'a> {
    type Item = Entry;

    ghost next_gives = { YieldsFirst (λ s. entries s.0.now) };

    ghost remaining = { item_count (λ s. entries s.0.now) };

    #[tactic(auto, using(crate::proofs::Steps::stepping))]
    fn next(&mut self) -> Option<Entry> {
        let [
            g0,
            g1,
            g2,
            g3,
            g4,
            g5,
            g6,
            g7,
            g8,
            g9,
            g10,
            g11,
            g12,
            g13,
            g14,
            g15,
            p0,
            p1,
            p2,
            p3,
            p4,
            p5,
            p6,
            p7,
            rest @ ..,
        ] = self.0
        else {
            return None;
        };
        let guid = u128::from_le_bytes([
            *g0, *g1, *g2, *g3, *g4, *g5, *g6, *g7, *g8, *g9, *g10, *g11, *g12, *g13, *g14, *g15,
        ]);
        let pointer = u64::from_le_bytes([*p0, *p1, *p2, *p3, *p4, *p5, *p6, *p7]);
        self.0 = rest;
        Some(Entry { guid, pointer })
    }
}

// The first entry whose GUID is the table's.
fn table_entry(bytes: &[u8]) -> Option<Entry>
    ensures { result ≡ table_entry bytes.now }
{
    Entries(bytes).find(|entry| entry.is_table())
}

// The pointer to the table that the entries name. The first entry with its GUID counts; null is no table.
pub fn table_pointer(entries: &[u8]) -> Result<u64, AcceptError>
    ensures { result ≡ pointer_in entries.now }
{
    if !entries.len().is_multiple_of(ENTRY_SIZE) {
        return Err(AcceptError::BadEntries);
    }
    match table_entry(entries).map(|entry| entry.pointer) {
        None | Some(0) => Err(AcceptError::NoTable),
        Some(pointer) => Ok(pointer),
    }
}

// May a table lie at a pointer? Its bitmap, behind the header, begins below 2^64 at a multiple of 8.
fn may_lie(pointer: u64) -> bool
    ensures { result ≡ may_lie pointer }
{
    pointer.is_multiple_of(8) && pointer.checked_add(HEADER_SIZE).is_some()
}

// The header of the table that the entries name, in the image at its pointer.
#[tactic(auto, using(crate::proofs::Finds::finds, efi_table::proofs::Powers::powers))]
pub fn find(entries: &[u8], image: &[u64]) -> Result<Header, AcceptError>
    ensures table { result ≡ found entries.now image.now }
    ensures finds { Finds }
    ensures powers { Powers }
{
    let pointer = table_pointer(entries)?;
    let header = Header::read_placed(may_lie(pointer), image)?;
    if image.len() < header.bitmap_end() {
        return Err(AcceptError::WrongImage);
    }
    Ok(header)
}
