// Tables of records on examples.
use crate::common::{call, count_of, sample, unwind};
use std::process::Abort;
use trace::fault::Cause;
use trace::record::Record;
use trace::source::Source;
use trace::table::TableSource;

// The source delivers each record of the table, and then the end, again and again.
fn check_delivered(rt: &impl Abort, table: &[Record]) {
    let mut source = TableSource::new(table);
    for record in table {
        assert_eq!(rt; source.next(), Ok(Some(*record)));
    }
    assert_eq!(rt; source.next(), Ok(None));
    assert_eq!(rt; source.next(), Ok(None));
}

// Records in range are delivered as they stand.
#[test]
fn delivers_the_table(rt: HostRuntime) {
    check_delivered(&rt, &[]);
    check_delivered(
        &rt,
        &[
            call(1),
            call(65_535),
            Record::Return,
            unwind(1),
            unwind(4_095),
            sample(0, 1, 0, 0),
            sample(4_294_967_295, 4_294_967_295, 65_535, 63),
        ],
    );
}

// Each record that its types allow and its range does not; the place is its index.
#[test]
fn finds_what_is_out_of_range(rt: HostRuntime) {
    let bad = [
        call(0),
        unwind(0),
        unwind(4_096),
        unwind(65_535),
        sample(0, 0, 0, 0),
        sample(0, 1, 0, 64),
        sample(0, 1, 0, 255),
    ];
    for record in bad {
        assert_eq!(rt;
            count_of(&mut TableSource::new(&[record])),
            Err(Cause::OutOfRange.at(0))
        );
        let later = [call(1), Record::Return, record, Record::Return];
        let mut source = TableSource::new(&later);
        assert_eq!(rt; source.next(), Ok(Some(call(1))));
        assert_eq!(rt; source.next(), Ok(Some(Record::Return)));
        assert_eq!(rt; source.next(), Err(Cause::OutOfRange.at(2)));
        assert_eq!(rt; source.next(), Err(Cause::OutOfRange.at(2)));
    }
    assert_eq!(rt; count_of(&mut TableSource::new(&[])), Ok(0));
}
