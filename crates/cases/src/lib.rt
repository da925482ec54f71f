// Worked cases, as theorems in one list and as tests over tables.
#![tactic(auto)]

ghost use Rattle.accept_memory.specs.Walks.{walk_answer, walk_requests};
ghost use Rattle.cases.specs.Summary.{refusal_of, summary_of};
ghost use Rattle.cases.specs.Worked.{Worked};
ghost use Rattle.fault.specs.Refusals.{told, told_by};
ghost use Rattle.host_models.specs.Cap.{cap_replies};
ghost use Rattle.host_models.specs.Inject.{inject_replies};
ghost use Rattle.host_models.specs.Map.{map_after, map_replies};
ghost use Rattle.host_models.specs.Retry.{retry_replies};
ghost use Rattle.std.specs.Prelude.{◌≡◌, ◌/◌};

use accept_memory::accept_memory;
use fault::Fault;
use hosts::cap::{Cap, CapLevel};
use hosts::inject::Inject;
use hosts::map::{MapHost, MapShape};
use hosts::retry::{Retry, RetryCount};

pub mod bitmaps;
pub mod tables;

// The list of worked cases holds.
pub fn worked_cases()
    ensures { Worked }
{}

// Accepts [start, end) over a map of the caller's bytes. The bytes afterwards are those of a map that has received the
// requests of the walk.
pub fn accept_in_bytes(
    shape: MapShape,
    bytes: &mut [u8],
    start: u64,
    end: u64,
) -> Result<u64, Fault>
    ensures answer { told_by result ≡ walk_answer (map_replies (shape.base / 4096) shape.count bytes.old) start end }
    ensures bytes { bytes.new ≡ map_after (shape.base / 4096) shape.count bytes.old (walk_requests (map_replies (shape.base / 4096) shape.count bytes.old) start end) }
{
    let mut host = MapHost::new(shape, bytes);
    accept_memory(&mut host, start, end)
}

// Accepts [start, end) over such a map under injected words, repeats after busy replies, and a cap.
pub fn accept_under_layers(
    shape: MapShape,
    words: &[u64],
    count: RetryCount,
    level: CapLevel,
    bytes: &mut [u8],
    start: u64,
    end: u64,
) -> Result<u64, Fault>
    ensures { told_by result ≡ walk_answer (cap_replies level (retry_replies count (inject_replies words.now (map_replies (shape.base / 4096) shape.count bytes.old)))) start end }
{
    let mut layers = Cap::new(
        level,
        Retry::new(count, Inject::new(words, MapHost::new(shape, bytes))),
    );
    accept_memory(&mut layers, start, end)
}

// A fault in short: the number of its refusal, its count and its address.
#[derive(Clone, Copy, Debug, PartialEq, Eq)]
pub struct Refusal {
    pub number: u8,
    pub count: u64,
    pub address: u64,
}

impl From<Fault> for Refusal {
    ghost from_gives = { λ f r. r ≡ refusal_of (told f) };

    fn from(fault: Fault) -> Refusal {
        Refusal {
            number: fault.number(),
            count: fault.count,
            address: fault.address,
        }
    }
}

// An answer with its fault in short.
pub fn summary(answer: &Result<u64, Fault>) -> Result<u64, Refusal>
    ensures { result ≡ summary_of (told_by answer.now) }
{
    answer.map_err(Refusal::from)
}

#[cfg(test)]
mod tests {
    use super::*;
    use std::test::Fail;
    use tdcall::TdCallError;

    struct Row {
        bytes: [u8; 8],
        start: u64,
        end: u64,
        answer: Result<u64, Refusal>,
        after: [u8; 8],
    }

    // Walks over a map of eight pages from address 0x40000000 on.
    const ROWS: [Row; 9] = [
        // all pending
        Row {
            bytes: [1; 8],
            start: 0x4000_0000,
            end: 0x4000_8000,
            answer: Ok(8),
            after: [4; 8],
        },
        // an empty span asks nothing, aligned or not
        Row {
            bytes: [1; 8],
            start: 0x4000_3001,
            end: 0x4000_3001,
            answer: Ok(0),
            after: [1; 8],
        },
        Row {
            bytes: [1; 8],
            start: 0x4000_3000,
            end: 0x4000_2000,
            answer: Ok(0),
            after: [1; 8],
        },
        // a start that is no multiple of 4096
        Row {
            bytes: [1; 8],
            start: 0x4000_0800,
            end: 0x4000_2000,
            answer: Err(Refusal {
                number: 1,
                count: 0,
                address: 0x4000_0800,
            }),
            after: [1; 8],
        },
        // an end that is none
        Row {
            bytes: [1; 8],
            start: 0x4000_0000,
            end: 0x4000_1FFF,
            answer: Err(Refusal {
                number: 1,
                count: 1,
                address: 0x4000_1000,
            }),
            after: [4, 1, 1, 1, 1, 1, 1, 1],
        },
        // accepted before
        Row {
            bytes: [1, 4, 2, 3, 4, 1, 1, 1],
            start: 0x4000_0000,
            end: 0x4000_5000,
            answer: Ok(5),
            after: [4, 4, 4, 4, 4, 1, 1, 1],
        },
        // an absent page, a byte that reads as absent, and a page behind the map
        Row {
            bytes: [1, 1, 0, 1, 1, 1, 1, 1],
            start: 0x4000_0000,
            end: 0x4000_4000,
            answer: Err(Refusal {
                number: 5,
                count: 3,
                address: 0x4000_2000,
            }),
            after: [4, 4, 0, 1, 1, 1, 1, 1],
        },
        Row {
            bytes: [1, 9, 1, 1, 1, 1, 1, 1],
            start: 0x4000_0000,
            end: 0x4000_4000,
            answer: Err(Refusal {
                number: 5,
                count: 2,
                address: 0x4000_1000,
            }),
            after: [4, 9, 1, 1, 1, 1, 1, 1],
        },
        Row {
            bytes: [1; 8],
            start: 0x4000_7000,
            end: 0x4000_9000,
            answer: Err(Refusal {
                number: 5,
                count: 2,
                address: 0x4000_8000,
            }),
            after: [1, 1, 1, 1, 1, 1, 1, 4],
        },
    ];

    #[test]
    fn walks(rt: HostRuntime) -> Result<(), Fail> {
        for row in &ROWS {
            let mut bytes = row.bytes;
            let shape = MapShape::new(0x4000_0000, 8)?;
            let answer = accept_in_bytes(shape, &mut bytes, row.start, row.end);
            assert_eq!(rt; summary(&answer), row.answer);
            assert_eq!(rt; bytes, row.after);
        }
        Ok(())
    }

    const STILL_BUSY: Refusal = Refusal {
        number: 5,
        count: 1,
        address: 0x4000_0000,
    };

    // A first page that is busy three times: the repeats, and the answer of the walk.
    const BUSY_ROWS: [(u8, Result<u64, Refusal>); 4] = [
        (0, Err(STILL_BUSY)),
        (2, Err(STILL_BUSY)),
        (3, Ok(2)),
        (7, Ok(2)),
    ];

    #[test]
    fn busy_pages(rt: HostRuntime) -> Result<(), Fail> {
        let busy = TdCallError::TdxOperandBusy.status();
        for (repeats, wanted) in BUSY_ROWS {
            let mut bytes = [1, 1];
            let answer = accept_under_layers(
                MapShape::new(0x4000_0000, 2)?,
                &[busy, busy, busy],
                RetryCount::new(repeats)?,
                CapLevel::new(2)?,
                &mut bytes,
                0x4000_0000,
                0x4000_2000,
            );
            assert_eq!(rt; summary(&answer), wanted);
        }
        Ok(())
    }

    #[test]
    fn refused_numbers(rt: HostRuntime) {
        assert!(rt; MapShape::new(0x1001, 1).is_err());
        assert!(rt; MapShape::new(0xFFFF_FFFF_FFFF_F000, 1).is_err());
        assert!(rt; MapShape::new(0xFFFF_FFFF_FFFF_E000, 1).is_ok());
        assert!(rt; RetryCount::new(8).is_err());
        assert!(rt; CapLevel::new(3).is_err());
    }
}
