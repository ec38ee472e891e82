// Both readers of traces for a caller in another language: it hands in a whole trace and is told one number, the digest of all that was
// read, so that two readers can be compared by it.

#![tactic(auto)]

ghost use Rattle.std.specs.Prelude.{◌≡◌};
ghost use Rattle.trace.specs.TextMeaning.{text_meaning};
ghost use Rattle.trace_bytes.specs.Bytes.{bytes_meaning};
ghost use Rattle.trace_export.specs.Digest.{mixed, record_value, faulted, digest_from, digest};

use trace::fault::Fault;
use trace::record::Record;
use trace::source::Source;
use trace::text::TextSource;
use trace_bytes::source::ByteSource;

// A sum with one more part. What was there is turned by a factor, so that the order of the parts counts.
fn mixed(sum: u64, part: u64) -> u64
    ensures { result ≡ mixed sum part }
{
    sum.wrapping_mul(31).wrapping_add(part)
}

// A record as one number, to which each field adds by a factor of its own. No sum of it passes 64 bits.
fn record_value(record: Record) -> u64
    ensures { result ≡ record_value «record» }
{
    match record {
        Record::Call { function } => 1 + 8 * u64::from(function),
        Record::Return => 2,
        Record::Unwind { count } => 3 + 8 * u64::from(count),
        Record::Sample(sample) => 4
            + 8 * u64::from(sample.step)
            + 4_099 * u64::from(sample.weight)
            + 2_097_169 * u64::from(sample.site)
            + 1_073_741_827 * u64::from(sample.region),
    }
}

// The sum with the fault that ended the reading.
fn faulted(sum: u64, fault: Fault) -> u64
    ensures { result ≡ faulted sum fault }
{
    mixed(
        mixed(sum, u64::from(u8::from(fault.cause))),
        fault.place as u64,
    )
}

// The sum `first` with all that the source has still to give.
fn digest<S: Source>(first: u64, source: &mut S) -> u64
    ensures { result ≡ digest_from first (S.Source.records source.old) (S.Source.ending source.old) }
{
    let mut sum = first;
    'records: loop {
        match source.next() {
            Ok(Some(record)) => sum = mixed(sum, record_value(record)),
            Ok(None) => return sum,
            Err(fault) => return faulted(sum, fault),
        }
    }
}

// The digest of a trace written as bytes.
#[unsafe(no_mangle)]
pub extern "C" fn cct_read_bytes(bytes: &[u8]) -> u64
    ensures { result ≡ digest (bytes_meaning 0 bytes.now) }
{
    let mut records = ByteSource::new(bytes);
    digest(0, &mut records)
}

// The digest of a trace written as text.
#[unsafe(no_mangle)]
pub extern "C" fn cct_read_text(text: &[u8]) -> u64
    ensures { result ≡ digest (text_meaning 0 text.now) }
{
    let mut lines = TextSource::new(text);
    digest(0, &mut lines)
}
