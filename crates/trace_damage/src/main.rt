// Reads damaged traces and prints what came of each: every beginning of a good trace, and every change of one byte of it. What it must
// print is written by tools/damage_reference.py, a reader of its own.

#![tactic(auto)]

ghost use Rattle.std.specs.Prelude.{◌<◌};

use std::{fmt, io};
use trace::fault::{Ending, Fault};
use trace::record::{Record, Sample};
use trace::source::Source;
use trace::text::TextSource;
use trace_bytes::source::ByteSource;

// A record to a line: every kind, numbers of one byte to five, some with zero groups on top, and the ends of ranges. The last number has
// five bytes, so that its fifth is also the last byte of all; and where the last step takes a byte more, the weight is 0 and a field is
// missed.
const BYTES: &[u8; 31] = b"\x01\x85\x00\
    \x04\xff\xff\xff\xff\x0f\x01\xff\xff\x03\x3f\
    \x02\
    \x03\xff\x1f\
    \x01\xff\xff\x03\
    \x04\x00\x01\x00\xbf\x80\x80\x80\x00";

// Every word, an empty line, and the ends of ranges; the last line has no line end. The zeros in front are there for a space in their
// place, which makes a field of 0 with a word too many, and for a digit between two fields of five, which makes eleven digits of a small
// number.
const TEXT: &[u8; 63] = b"back\n\nunwind 04095\nsample 4294967295 00001 65535 63\ncall 065535";

// What a digest is multiplied by before a number is added: odd, so that nothing is lost, and large, so that small differences do not
// cancel each other.
const FACTOR: u64 = 1_099_511_628_211;

// A number that depends on all numbers that were put into it, and on their order. An answer begins with a number of its own, 1 to 4 for
// the kinds of records, 5 for the end and 6 for a fault, and all its fields follow.
#[derive(Clone, Copy)]
struct Digest {
    value: u64,
}

impl Digest {
    // Of no numbers. Not 0, to which a 0 makes no difference.
    fn new() -> Digest {
        Digest { value: 1 }
    }

    fn put(&mut self, number: u64) {
        self.value = self.value.wrapping_mul(FACTOR).wrapping_add(number);
    }

    fn put_sample(&mut self, sample: Sample) {
        self.put(4);
        self.put(u64::from(sample.step));
        self.put(u64::from(sample.weight));
        self.put(u64::from(sample.site));
        self.put(u64::from(sample.region));
    }

    fn put_record(&mut self, record: Record) {
        match record {
            Record::Call { function } => {
                self.put(1);
                self.put(u64::from(function));
            }
            Record::Return => self.put(2),
            Record::Unwind { count } => {
                self.put(3);
                self.put(u64::from(count));
            }
            Record::Sample(sample) => self.put_sample(sample),
        }
    }

    fn put_fault(&mut self, fault: Fault) {
        self.put(6);
        self.put(u64::from(u8::from(fault.cause)));
        self.put(fault.place as u64);
        self.put(u64::from(fault.passed));
    }

    fn put_answer(&mut self, answer: Result<Option<Record>, Fault>) {
        match answer {
            Ok(Some(record)) => self.put_record(record),
            Ok(None) => self.put(5),
            Err(fault) => self.put_fault(fault),
        }
    }
}

impl fmt::Display for Digest {
    fn fmt<W: fmt::Write>(&self, f: &mut fmt::Formatter<W>) -> fmt::Result {
        write!(f, "{:016x}", self.value)
    }
}

// What came of a trace.
#[derive(Clone, Copy)]
struct Outcome {
    // how many records were delivered before the ending
    records: usize,
    // none if there were more records than bytes, which no trace has
    ending: Option<Ending>,
    // of every answer in order
    digest: Digest,
}

impl fmt::Display for Outcome {
    fn fmt<W: fmt::Write>(&self, f: &mut fmt::Formatter<W>) -> fmt::Result {
        write!(f, "{}, ", self.records)?;
        match self.ending {
            None => write!(f, "no ending")?,
            Some(Ok(())) => write!(f, "end")?,
            Some(Err(fault)) => {
                write!(f, "cause {} at {}", u8::from(fault.cause), fault.place)?;
            }
        }
        write!(f, ", {}", self.digest)
    }
}

// Asks for records until the ending, and then twice more, since the ending stays. A record takes a byte at least, so that a trace of so
// many bytes has no more records, and one turn more meets the ending.
fn read_out<S: Source>(source: &mut S, bytes: usize) -> Outcome {
    let mut digest = Digest::new();
    for records in 0..=bytes {
        let answer = source.next();
        digest.put_answer(answer);
        if let Ok(Some(_)) = answer {
            continue;
        }
        digest.put_answer(source.next());
        digest.put_answer(source.next());
        return Outcome {
            records,
            ending: Some(answer.map(|_| ())),
            digest,
        };
    }
    Outcome {
        records: bytes.saturating_add(1),
        ending: None,
        digest,
    }
}

// How many traces came to each ending: to the end, and to a fault of each cause by its number.
#[derive(Drop)]
struct Tally {
    counts: [u16; 6],
}

impl Tally {
    fn new() -> Tally {
        Tally { counts: [0; 6] }
    }

    fn count(&mut self, ending: Ending) {
        let index = ending.map_or_else(|fault| usize::from(u8::from(fault.cause)), |()| 0);
        let count = &mut self.counts[index];
        *count = count.saturating_add(1);
    }
}

impl fmt::Display for Tally {
    fn fmt<W: fmt::Write>(&self, f: &mut fmt::Formatter<W>) -> fmt::Result {
        let [end, one, two, three, four, five] = self.counts;
        write!(f, "{end} {one} {two} {three} {four} {five}")
    }
}

// The trace with this byte at the place.
fn with_byte<const N: usize>(trace: &[u8; N], place: usize, byte: u8) -> [u8; N]
    requires { place < N }
{
    let mut changed = *trace;
    changed[place] = byte;
    changed
}

// What comes of the 256 bytes that can stand at a place of the trace: to which endings they come, and a digest of all outcomes.
fn read_changed<F: Fn(&[u8]) -> Outcome, const N: usize>(
    read: &F,
    trace: &[u8; N],
    place: usize,
) -> (Tally, Digest)
    requires callable { F.IsAlwaysCallable read.now }
    requires within { place < N }
{
    let mut tally = Tally::new();
    let mut digest = Digest::new();
    for byte in 0..=255 {
        let outcome = read(&with_byte(trace, place, byte));
        digest.put(outcome.digest.value);
        if let Some(ending) = outcome.ending {
            tally.count(ending);
        }
    }
    (tally, digest)
}

// All damage that is done to a trace: a line for each length that it can be cut to, and one for each of its places.
fn print_damage<F: Fn(&[u8]) -> Outcome, const N: usize>(
    rt: &impl Print,
    name: &str,
    read: F,
    trace: &[u8; N],
) -> io::Result<()>
    requires { F.IsAlwaysCallable read }
{
    println!(rt; "{name}, prefixes: length, records, ending, digest")?;
    for length in 0..=N {
        let outcome = read(&trace[..length]);
        println!(rt; "{length}: {outcome}")?;
    }
    println!(rt;
        "{name}, changes: place, how many of 256 came to the end and to causes 1 to 5, digest"
    )?;
    for place in 0..N {
        let (tally, digest) = read_changed(&read, trace, place);
        println!(rt; "{place}: {tally}, {digest}")?;
    }
    Ok(())
}

fn main(rt: HostRuntime) -> io::Result<()> {
    print_damage(
        &rt,
        "bytes",
        |trace| read_out(&mut ByteSource::new(trace), trace.len()),
        BYTES,
    )?;
    print_damage(
        &rt,
        "text",
        |trace| read_out(&mut TextSource::new(trace), trace.len()),
        TEXT,
    )
}
