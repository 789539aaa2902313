//! A range of the bytes that a caller passed in.

ghost use Rattle.std.specs.Prelude.{◌≡◌, ◌≤◌, length, slice_range};

use std::convert::AsSlice;
use std::ops::Range;

/// A range of some bytes, which are borrowed or owned. No byte is copied.
#[derive(Debug, Drop)]
pub struct DataRange<T: AsSlice<u8>> {
    source: T,
    range: Range<usize>,
    ghost ordered: { range.start ≤ range.end },
    ghost inside: { range.end ≤ length (T.items source) },
}

impl<T: AsSlice<u8>> DataRange<T> {
    ghost use Rattle.turn_client_api.specs.Range.{source_of, place_of, part_of};

    /// This range of these bytes, inside which it lies.
    pub fn new(source: T, range: Range<usize>) -> DataRange<T>
        requires ordered { range.start ≤ range.end }
        requires inside { range.end ≤ length (T.items source) }
        ensures source { source_of result ≡ source }
        ensures place { place_of result ≡ range }
        ensures part { part_of result ≡ slice_range (T.items source) range.start range.end }
    {
        DataRange { source, range }
    }

    /// All the bytes, of which this is a range.
    pub fn source(&self) -> &T
        ensures { result.now ≡ source_of self.now }
    {
        &self.source
    }

    /// Where the range lies in them.
    pub fn range(&self) -> Range<usize>
        ensures { result ≡ place_of self.now }
    {
        self.range.start..self.range.end
    }
}

impl<T: AsSlice<u8>> AsSlice<u8> for DataRange<T> {
    ghost use Rattle.turn_client_api.specs.Range.{part_of};

    ghost items = { part_of };

    fn as_slice(&self) -> &[u8] {
        &self.source.as_slice()[self.range.start..self.range.end]
    }
}
