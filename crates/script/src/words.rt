// The words of a line, read one after the other.
use crate::line::LineError;
use crate::list::{Repeated, expand};
use crate::number::number;
use efi_table::layout::Range;
use std::alloc::Global;
use std::str::SplitAsciiWhitespace;

// The words of a line that are still to be read.
#[derive(Debug, Drop)]
pub(crate) struct Words<'a> {
    rest: SplitAsciiWhitespace<'a>,
}

impl<'a> Words<'a> {
    // The words of a text.
    pub(crate) fn new(text: &'a str) -> Words<'a> {
        Words {
            rest: text.split_ascii_whitespace(),
        }
    }

    // The first word, if there is one.
    pub(crate) fn first(&mut self) -> Option<&'a str> {
        self.rest.next()
    }

    pub(crate) fn next(&mut self) -> Result<&'a str, LineError> {
        self.rest.next().ok_or(LineError::TooFewWords)
    }

    pub(crate) fn number(&mut self) -> Result<u64, LineError> {
        let word = self.next()?;
        Ok(number(word)?)
    }

    pub(crate) fn range(&mut self) -> Result<Range, LineError> {
        let start = self.number()?;
        let end = self.number()?;
        Ok(Range { start, end })
    }

    // There is no further word.
    pub(crate) fn end(&mut self) -> Result<(), LineError> {
        match self.rest.next() {
            None => Ok(()),
            Some(_) => Err(LineError::TooManyWords),
        }
    }

    pub(crate) fn only_number(&mut self) -> Result<u64, LineError> {
        let number = self.number()?;
        self.end()?;
        Ok(number)
    }

    pub(crate) fn only_range(&mut self) -> Result<Range, LineError> {
        let range = self.range()?;
        self.end()?;
        Ok(range)
    }

    // The list that the words write.
    pub(crate) fn numbers(&mut self, heap: Global) -> Result<Vec<u64>, LineError> {
        let mut runs = Vec::new(heap);
        for word in &mut self.rest {
            runs.push(word.parse::<Repeated>()?)?;
        }
        expand(heap, runs.as_slice())
    }

    // Ranges, each by its start and its end.
    pub(crate) fn ranges(&mut self, heap: Global) -> Result<Vec<Range>, LineError> {
        let mut numbers = Vec::new(heap);
        for word in &mut self.rest {
            numbers.push(number(word)?)?;
        }
        let mut list = Vec::new(heap);
        for pair in numbers.as_slice().chunks(2) {
            let [start, end] = *pair else {
                return Err(LineError::TooFewWords);
            };
            list.push(Range { start, end })?;
        }
        Ok(list)
    }

    // The bytes that pairs of hexadecimal digits write; `-` writes none.
    pub(crate) fn hex_bytes(&mut self, heap: Global) -> Result<Vec<u8>, LineError> {
        let word = self.next()?;
        self.end()?;
        hex_bytes(heap, if word == "-" { "" } else { word })
    }
}

fn hex_bytes(heap: Global, digits: &str) -> Result<Vec<u8>, LineError> {
    let mut bytes = Vec::new(heap);
    for pair in digits.as_bytes().chunks(2) {
        let [high, low] = pair else {
            return Err(LineError::NoHexBytes);
        };
        let high = (*high as char).to_digit(16).ok_or(LineError::NoHexBytes)?;
        let low = (*low as char).to_digit(16).ok_or(LineError::NoHexBytes)?;
        bytes.push((16 * high + low) as u8)?;
    }
    Ok(bytes)
}
