// A trace written as bytes, one record after the other.
ghost use Rattle.std.specs.Prelude.{◌≡◌, drop};
ghost use Rattle.trace_bytes.specs.Bytes.{bytes_meaning, bytes_left};
ghost use Rattle.trace_bytes.specs.BytesRanged.{bytes_ranged};

use crate::record::read_record;
use trace::fault::Fault;
use trace::record::Record;
use trace::source::Source;

// The records of some bytes.
#[derive(Drop)]
pub struct ByteSource<'a> {
    bytes: &'a [u8],
    // where the next record begins
    at: usize,
}

impl<'a> ByteSource<'a> {
    // All records of the bytes.
    pub fn new(bytes: &'a [u8]) -> ByteSource<'a>
        ensures { bytes_left result ≡ bytes_meaning 0 bytes.now }
    {
        ByteSource { bytes, at: 0 }
    }
}

impl Source for ByteSource<'_> {
    ghost records = { λ s. (bytes_left s).records };

    ghost ending = { λ s. (bytes_left s).ending };

    ghost ranged = { λ s. bytes_ranged s.at (drop s.at s.bytes.now) };

    // The place moves on only past a whole record, so that a fault and the end are answered again.
    fn next(&mut self) -> Result<Option<Record>, Fault> {
        let at = self.at;
        if at >= self.bytes.len() {
            return Ok(None);
        }
        let (record, taken) = read_record(self.bytes, at)?;
        self.at = at + 1 + taken;
        Ok(Some(record))
    }
}
