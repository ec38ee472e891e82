// The byte format on examples.
use crate::common::{call, count_of, sample, unwind};
use trace::fault::{Cause, Fault};
use trace::record::Record;
use trace::source::Source;
use trace_bytes::number::read_number;
use trace_bytes::source::ByteSource;

fn count(bytes: &[u8]) -> Result<usize, Fault> {
    count_of(&mut ByteSource::new(bytes))
}

// The value and how many bytes it took; what follows is not looked at.
#[test]
fn reads_numbers(rt: HostRuntime) {
    let table: [(&[u8], (u32, usize)); 11] = [
        (&[0], (0, 1)),
        (&[127], (127, 1)),
        (&[127, 255], (127, 1)),
        (&[128, 1], (128, 2)),
        (&[172, 2], (300, 2)),
        (&[133, 0], (5, 2)),
        (&[133, 128, 128, 128, 0], (5, 5)),
        (&[192, 184, 2, 9], (40_000, 3)),
        (&[255, 255, 255, 127], (268_435_455, 4)),
        (&[128, 128, 128, 128, 1], (268_435_456, 5)),
        (&[255, 255, 255, 255, 15], (4_294_967_295, 5)),
    ];
    for (bytes, number) in table {
        assert_eq!(rt; read_number(bytes, 0, 9), Ok(number));
    }
    assert_eq!(rt; read_number(&[1, 2, 172, 2], 2, 0), Ok((300, 2)));
}

// A fault is that of the record that the caller names.
#[test]
fn refuses_numbers(rt: HostRuntime) {
    let table: [(&[u8], Cause); 8] = [
        (&[], Cause::CutShort),
        (&[128], Cause::CutShort),
        (&[255, 255, 255, 255], Cause::CutShort),
        (&[255, 255, 255, 255, 16], Cause::TooLarge),
        (&[128, 128, 128, 128, 16], Cause::TooLarge),
        (&[128, 128, 128, 128, 127], Cause::TooLarge),
        (&[128, 128, 128, 128, 128], Cause::TooLarge),
        (&[128, 128, 128, 128, 128, 0], Cause::TooLarge),
    ];
    for (bytes, cause) in table {
        assert_eq!(rt; read_number(bytes, 0, 9), Err(cause.at(9)));
    }
    assert_eq!(rt; read_number(&[1, 2], 3, 0), Err(Cause::CutShort.at(0)));
}

// The first and the last number of each range.
#[test]
fn reads_records(rt: HostRuntime) {
    let table: [(&[u8], Record); 11] = [
        (&[1, 1], call(1)),
        (&[1, 255, 255, 3], call(65_535)),
        (&[1, 129, 128, 128, 128, 0], call(1)),
        (&[2], Record::Return),
        (&[3, 1], unwind(1)),
        (&[3, 255, 31], unwind(4_095)),
        (&[4, 0, 1, 0, 0], sample(0, 1, 0, 0)),
        (
            &[4, 255, 255, 255, 255, 15, 1, 0, 0],
            sample(4_294_967_295, 1, 0, 0),
        ),
        (
            &[4, 7, 255, 255, 255, 255, 15, 0, 0],
            sample(7, 4_294_967_295, 0, 0),
        ),
        (&[4, 7, 8, 255, 255, 3, 63], sample(7, 8, 65_535, 63)),
        (&[4, 10, 5, 0, 3, 9], sample(10, 5, 0, 3)),
    ];
    for (bytes, record) in table {
        assert_eq!(rt; ByteSource::new(bytes).next(), Ok(Some(record)));
    }
}

#[test]
fn reads_to_the_end(rt: HostRuntime) {
    let table: [(&[u8], usize); 4] = [
        (&[], 0),
        (&[2], 1),
        (&[1, 1, 4, 0, 1, 0, 0, 2], 3),
        (&[2, 2, 3, 5, 2, 1, 192, 184, 2], 5),
    ];
    for (bytes, records) in table {
        assert_eq!(rt; count(bytes), Ok(records));
    }
}

// The kind first, then the fields in order, then the ranges; the place is the record's first byte.
#[test]
fn finds_faults(rt: HostRuntime) {
    let table: [(&[u8], Cause, usize); 20] = [
        (&[0], Cause::UnknownKind, 0),
        (&[5], Cause::UnknownKind, 0),
        (&[2, 2, 129, 1], Cause::UnknownKind, 2),
        (&[255, 255, 255, 255, 255, 16], Cause::UnknownKind, 0),
        (&[1], Cause::CutShort, 0),
        (&[2, 1, 135], Cause::CutShort, 1),
        (&[3], Cause::CutShort, 0),
        (&[1, 1, 4, 10, 5, 0], Cause::CutShort, 2),
        (&[4, 10, 0, 0], Cause::CutShort, 0),
        (&[1, 255, 255, 255, 255, 16], Cause::TooLarge, 0),
        (&[4, 255, 255, 255, 255, 31], Cause::TooLarge, 0),
        (&[4, 0, 0, 128, 128, 128, 128, 128], Cause::TooLarge, 0),
        (&[1, 0], Cause::OutOfRange, 0),
        (&[1, 128, 128, 4], Cause::OutOfRange, 0),
        (&[2, 3, 0], Cause::OutOfRange, 1),
        (&[3, 128, 32], Cause::OutOfRange, 0),
        (&[4, 0, 0, 0, 0], Cause::OutOfRange, 0),
        (&[4, 0, 1, 128, 128, 4, 0], Cause::OutOfRange, 0),
        (&[4, 0, 1, 0, 64], Cause::OutOfRange, 0),
        (&[2, 1, 7, 1, 0, 2], Cause::OutOfRange, 3),
    ];
    for (bytes, cause, place) in table {
        assert_eq!(rt; count(bytes), Err(cause.at(place)));
    }
}

// A source that has come to a fault or to the end stays there.
#[test]
fn stays_where_it_ended(rt: HostRuntime) {
    let mut broken = ByteSource::new(&[2, 1, 0, 2]);
    let mut whole = ByteSource::new(&[2]);
    assert_eq!(rt; broken.next(), Ok(Some(Record::Return)));
    assert_eq!(rt; whole.next(), Ok(Some(Record::Return)));
    for _ in 0..3 {
        assert_eq!(rt; broken.next(), Err(Cause::OutOfRange.at(1)));
        assert_eq!(rt; whole.next(), Ok(None));
    }
}
