// The record that bytes begin with: a byte that tells its kind, and its fields as numbers.
ghost use Rattle.std.specs.Prelude.{◌≡◌, ◌+◌, ◌<◌, ◌≤◌, length, drop, Ok, slice_index};
ghost use Rattle.trace.specs.Meanings.{found_at};
ghost use Rattle.trace.specs.Text.{and_then};
ghost use Rattle.trace_bytes.specs.Bytes.{fields_record, record_of};
ghost use Rattle.trace_bytes.specs.Groups.{number_list};

use crate::kind::Kind;
use crate::number::read_number;
use trace::fault::{Cause, Fault};
use trace::line::{call_of, sample_of, unwind_of};
use trace::record::Record;

// The fields of a record.
#[derive(Clone, Copy)]
struct Fields<'a> {
    bytes: &'a [u8],
    // where the first of them begins
    at: usize,
    // where the record begins, which is the place of its faults
    place: usize,
    ghost within: { at ≤ length bytes.now },
}

impl Fields<'_> {
    // So many numbers, and how many bytes they took.
    fn read<const N: usize>(self) -> Result<([u32; N], usize), Fault>
        ensures { result ≡ found_at (number_list N (drop self.entry.at self.entry.bytes.now)) self.entry.place }
    {
        let mut numbers = [0; N];
        let mut taken = 0;
        for number in &mut numbers {
            let (value, more) = read_number(self.bytes, self.at + taken, self.place)?;
            *number = value;
            taken += more;
        }
        Ok((numbers, taken))
    }

    // A record, if its fields were in range, and how many bytes they took.
    fn sized(self, record: Result<Record, Cause>, taken: usize) -> Result<(Record, usize), Fault>
        ensures { result ≡ found_at (and_then «record» (λ x. Ok (x, taken))) self.entry.place }
    {
        let record = record.map_err(|cause| cause.at(self.place))?;
        Ok((record, taken))
    }

    // The record of the kind with these fields, and how many bytes they took.
    fn record(self, kind: Kind) -> Result<(Record, usize), Fault>
        ensures { result ≡ found_at (fields_record kind (drop self.entry.at self.entry.bytes.now)) self.entry.place }
    {
        match kind {
            Kind::Call => {
                let ([function], taken) = self.read::<1>()?;
                self.sized(call_of(function), taken)
            }
            Kind::Return => Ok((Record::Return, 0)),
            Kind::Unwind => {
                let ([count], taken) = self.read::<1>()?;
                self.sized(unwind_of(count), taken)
            }
            Kind::Sample => {
                let ([step, weight, site, region], taken) = self.read::<4>()?;
                self.sized(sample_of(step, weight, site, region), taken)
            }
        }
    }
}

// The record that begins at `at`, and how many bytes its fields took. Its kind is looked at first.
pub(crate) fn read_record(bytes: &[u8], at: usize) -> Result<(Record, usize), Fault>
    requires { at < length bytes.now }
    ensures { result ≡ found_at (record_of (slice_index bytes.now at) (drop (at + 1) bytes.now)) at }
{
    let kind = Kind::try_from(bytes[at]).map_err(|cause| cause.at(at))?;
    let fields = Fields {
        bytes,
        at: at + 1,
        place: at,
    };
    fields.record(kind)
}
