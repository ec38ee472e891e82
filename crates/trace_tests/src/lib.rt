// Tests of the three sources on examples, edges and damaged input; those of the text format stand here. What comes of every cut and of
// every change of one byte is in the program `trace_damage`.

#![tactic(auto)]

#[cfg(test)]
mod bytes;
#[cfg(test)]
mod common;
#[cfg(test)]
mod tables;

#[cfg(test)]
mod tests {
    use crate::common::{call, count_of, sample, unwind};
    use trace::fault::{Cause, Fault};
    use trace::record::Record;
    use trace::source::Source;
    use trace::text::TextSource;

    fn count(text: &[u8]) -> Result<usize, Fault> {
        count_of(&mut TextSource::new(text))
    }

    // The first and the last number of each range, also with zeros before it.
    #[test]
    fn reads_records(rt: HostRuntime) {
        let table: [(&[u8], Record); 12] = [
            (b"call 1", call(1)),
            (b"call 65535", call(65535)),
            (b"call 0000000001", call(1)),
            (b"back", Record::Return),
            (b"unwind 1", unwind(1)),
            (b"unwind 4095", unwind(4095)),
            (b"sample 0 1 0 0", sample(0, 1, 0, 0)),
            (b"sample 4294967295 1 0 0", sample(4294967295, 1, 0, 0)),
            (b"sample 7 4294967295 0 0", sample(7, 4294967295, 0, 0)),
            (b"sample 7 8 65535 63", sample(7, 8, 65535, 63)),
            (b"\n\nback\n\n", Record::Return),
            (b"call 12\ncall 1", call(12)),
        ];
        for (text, record) in table {
            let mut source = TextSource::new(text);
            assert_eq!(rt; source.next(), Ok(Some(record)));
        }
    }

    // How many records there are: line ends, a missing last one, and empty lines.
    #[test]
    fn reads_to_the_end(rt: HostRuntime) {
        let table: [(&[u8], usize); 6] = [
            (b"", 0),
            (b"\n\n", 0),
            (b"back", 1),
            (b"call 1\nback", 2),
            (b"call 1\nback\n", 2),
            (b"\ncall 1\n\n\nback\n\nunwind 2\n\n", 3),
        ];
        for (text, records) in table {
            assert_eq!(rt; count(text), Ok(records));
        }
    }

    // A line that is cut short, and one whose number is too large.
    #[test]
    fn finds_what_is_cut_or_too_large(rt: HostRuntime) {
        let table: [(&[u8], Cause, usize); 10] = [
            (b"call", Cause::CutShort, 0),
            (b"back\nunwind", Cause::CutShort, 5),
            (b"call 1\nsample 1 2 3\nback", Cause::CutShort, 7),
            (b"sample 0", Cause::CutShort, 0),
            (b"call 00000000001", Cause::TooLarge, 0),
            (b"call 4294967296", Cause::TooLarge, 0),
            (b"\n\nunwind 9999999999", Cause::TooLarge, 2),
            (b"sample 4294967296 1 0 0", Cause::TooLarge, 0),
            (b"sample 0 4294967296 0 0", Cause::TooLarge, 0),
            (b"sample 0 0 0 12345678901", Cause::TooLarge, 0),
        ];
        for (text, cause, place) in table {
            assert_eq!(rt;
                count(text),
                Err(Fault {
                    cause,
                    place,
                    passed: 0,
                })
            );
        }
    }

    // A first word that names no kind, and fields past the ends of their ranges.
    #[test]
    fn finds_what_is_unknown_or_out_of_range(rt: HostRuntime) {
        let table: [(&[u8], Cause, usize); 14] = [
            (b" call 1", Cause::UnknownKind, 0),
            (b"back\n\n7", Cause::UnknownKind, 6),
            (b"calls 1", Cause::UnknownKind, 0),
            (b"cal 1", Cause::UnknownKind, 0),
            (b"back\r\n", Cause::UnknownKind, 0),
            (b"call\t1", Cause::UnknownKind, 0),
            (b"return", Cause::UnknownKind, 0),
            (b"call 0", Cause::OutOfRange, 0),
            (b"call 65536", Cause::OutOfRange, 0),
            (b"call 2\nunwind 0", Cause::OutOfRange, 7),
            (b"unwind 4096", Cause::OutOfRange, 0),
            (b"sample 0 0 0 0", Cause::OutOfRange, 0),
            (b"sample 0 1 65536 0", Cause::OutOfRange, 0),
            (b"sample 0 1 0 64", Cause::OutOfRange, 0),
        ];
        for (text, cause, place) in table {
            assert_eq!(rt;
                count(text),
                Err(Fault {
                    cause,
                    place,
                    passed: 0,
                })
            );
        }
    }

    // Fields that are no numbers, and words too many, which come before the ranges.
    #[test]
    fn finds_bad_fields(rt: HostRuntime) {
        let table: [(&[u8], usize); 11] = [
            (b"call  1", 0),
            (b"call ", 0),
            (b"call 1 ", 0),
            (b"call 1\r\n", 0),
            (b"back\nback ", 5),
            (b"call 12345678901x", 0),
            (b"call -1", 0),
            (b"sample x", 0),
            (b"call 0 1", 0),
            (b"back 1", 0),
            (b"sample 0 0 65536 64 0", 0),
        ];
        for (text, place) in table {
            assert_eq!(rt;
                count(text),
                Err(Fault {
                    cause: Cause::BadField,
                    place,
                    passed: 0,
                })
            );
        }
    }

    // A source that has come to a fault or to the end stays there.
    #[test]
    fn stays_where_it_ended(rt: HostRuntime) {
        let fault = Fault {
            cause: Cause::OutOfRange,
            place: 6,
            passed: 0,
        };
        let mut broken = TextSource::new(b"back\n\ncall 0\nback");
        let mut whole = TextSource::new(b"back\n\n");
        assert_eq!(rt; broken.next(), Ok(Some(Record::Return)));
        assert_eq!(rt; whole.next(), Ok(Some(Record::Return)));
        for _ in 0..3 {
            assert_eq!(rt; broken.next(), Err(fault));
            assert_eq!(rt; whole.next(), Ok(None));
        }
    }

    // The numbers of the causes.
    #[test]
    fn numbers_causes(rt: HostRuntime) {
        let table = [
            (Cause::CutShort, 1),
            (Cause::TooLarge, 2),
            (Cause::UnknownKind, 3),
            (Cause::OutOfRange, 4),
            (Cause::BadField, 5),
        ];
        for (cause, number) in table {
            assert_eq!(rt; u8::from(cause), number);
        }
    }
}
