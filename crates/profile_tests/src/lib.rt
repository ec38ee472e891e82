// Summaries and trees on examples: edges of the table, of the path and of the ranges, and what a rejected call leaves.

#![tactic(auto)]

#[cfg(test)]
mod tests {
    use metrics::calls::Calls;
    use metrics::metric::Metric;
    use metrics::sum::Sum;
    use metrics::work::Work;
    use profile::reading::{ReadIn, Stop, read_in};
    use profile::summary::{Summary, check_table};
    use rows::rejection::Rejection;
    use rows::row::Row;
    use rows::shape::ShapeRow;
    use std::marker::PhantomData;
    use std::process::Abort;
    use std::test::Fail;
    use trace::fault::{Cause, Fault};
    use trace::record::{Record, Sample};
    use trace::source::Source;
    use trace::table::TableSource;
    use trace::text::TextSource;
    use trace_bytes::source::ByteSource;

    const WEIGHT_5: Sample = Sample {
        step: 0,
        weight: 5,
        site: 0,
        region: 0,
    };

    // a sum is a literal where a constant needs one
    const NO_CALLS: Calls = Sum {
        total: 0,
        amount: PhantomData,
    };

    const WORK_5: Work = Sum {
        total: 5,
        amount: PhantomData,
    };

    #[test]
    fn sums_are_written_by_their_names(rt: HostRuntime) -> Result<(), Fail> {
        let text = format!(in rt.alloc(); "{:?} {:?}", NO_CALLS, WORK_5)?;
        assert_eq!(rt; text.as_str(), "Calls { count: 0 } Work { weight: 5 }");
        Ok(())
    }

    #[test]
    fn new_has_one_row(rt: HostRuntime) -> Result<(), Fail> {
        let mut rows = [Row::<Calls>::empty(); 2];
        assert!(rt; check_table(&rows).is_ok());
        let summary = Summary::new(&mut rows);
        assert!(rt; summary.level() == 0 && summary.row_count() == 1 && summary.open_row() == 0);
        assert!(rt; summary.row(1).is_none());
        let row = summary.row(0).ok_or("no row 0")?;
        assert!(rt; row.level == 0 && row.function == 0 && row.parent == 0);
        assert!(rt; row.value.total == 0);
        Ok(())
    }

    #[test]
    fn tables_have_a_size(rt: HostRuntime) -> Result<(), Fail> {
        let table = vec![in rt.alloc(); Row::<Calls>::empty(); 65_536]?;
        assert!(rt; check_table(&table[0..0]).is_err());
        assert!(rt; check_table(&table[0..1]).is_ok());
        assert!(rt; check_table(&table[0..65_535]).is_ok());
        assert!(rt; check_table(&table).is_err());
        Ok(())
    }

    #[test]
    fn over_answers_for_the_size(rt: HostRuntime) -> Result<(), Fail> {
        let mut table = vec![in rt.alloc(); Row::<Calls>::empty(); 65_536]?;
        assert!(rt; Summary::over(&mut table[0..0]).is_err());
        assert!(rt; Summary::over(table.as_mut_slice()).is_err());
        assert!(rt; Summary::over(&mut table[0..65_535]).is_ok());
        let mut summary = Summary::over(&mut table[0..1])
            .ok()
            .ok_or("a row is enough")?;
        assert!(rt; summary.row_count() == 1 && summary.level() == 0);
        assert_eq!(rt; summary.return_(), Err(Rejection::TooFewRows));
        Ok(())
    }

    #[test]
    fn a_full_table_rejects_and_stays(rt: HostRuntime) -> Result<(), Fail> {
        let mut rows = [Row::<Calls>::empty(); 3];
        let mut summary = Summary::new(&mut rows);
        assert!(rt; summary.call(1).is_ok() && summary.call(2).is_ok());
        assert_eq!(rt; summary.call(3), Err(Rejection::TooFewRows));
        assert!(rt; summary.row_count() == 3 && summary.open_row() == 2);
        // what is there already needs no row
        assert!(rt; summary.return_().is_ok() && summary.call(2).is_ok());
        // two functions are open, so the third return needs a level's row
        assert_eq!(rt; summary.unwind(3), Err(Rejection::TooFewRows));
        assert!(rt; summary.open_row() == 2 && summary.level() == 0);
        assert!(rt; summary.unwind(2).is_ok());
        assert_eq!(rt; summary.return_(), Err(Rejection::TooFewRows));
        let row = summary.row(2).ok_or("no row 2")?;
        assert!(rt; row.function == 2 && row.parent == 1 && row.value.total == 2);
        Ok(())
    }

    #[test]
    fn ranges_have_edges(rt: HostRuntime) -> Result<(), Fail> {
        let mut rows = vec![in rt.alloc(); Row::<Work>::empty(); 5_000]?;
        let mut summary = Summary::new(rows.as_mut_slice());
        assert_eq!(rt; summary.call(0), Err(Rejection::OutOfRange));
        assert!(rt; summary.call(1).is_ok() && summary.call(65_535).is_ok());
        assert_eq!(rt; summary.unwind(0), Err(Rejection::OutOfRange));
        assert_eq!(rt; summary.unwind(4_096), Err(Rejection::OutOfRange));
        assert!(rt; summary.unwind(1).is_ok() && summary.unwind(4_095).is_ok());
        assert!(rt; summary.level() == 4_094);
        assert_eq!(rt;
            summary.sample(Sample {
                weight: 0,
                ..WEIGHT_5
            }),
            Err(Rejection::OutOfRange)
        );
        assert_eq!(rt;
            summary.sample(Sample {
                region: 64,
                ..WEIGHT_5
            }),
            Err(Rejection::OutOfRange)
        );
        assert!(rt;
            summary
                .sample(Sample {
                    weight: u32::MAX,
                    region: 63,
                    ..WEIGHT_5
                })
                .is_ok()
        );
        Ok(())
    }

    #[test]
    fn read_in_stops_four_ways(rt: HostRuntime) {
        let mut rows = [Row::<Calls>::empty(); 3];
        let mut summary = Summary::new(&mut rows);
        let mut source = TextSource::new(b"call 1\nback\ncall 2\nback\ncall 3\nback\nbad\n");
        assert_eq!(rt;
            read_in(&mut source, &mut summary, 0),
            ReadIn {
                added: 0,
                stop: Stop::Limit,
            }
        );
        assert_eq!(rt;
            read_in(&mut source, &mut summary, 3),
            ReadIn {
                added: 3,
                stop: Stop::Limit,
            }
        );
        // the rejected call has left the source, and what was added stays
        assert_eq!(rt;
            read_in(&mut source, &mut summary, 9),
            ReadIn {
                added: 1,
                stop: Stop::Rejected(Rejection::TooFewRows),
            }
        );
        assert!(rt; summary.row_count() == 3);
        let fault = Fault {
            cause: Cause::UnknownKind,
            place: 36,
            passed: 0,
        };
        assert_eq!(rt;
            read_in(&mut source, &mut summary, 9),
            ReadIn {
                added: 0,
                stop: Stop::Rejected(Rejection::TooFewRows),
            }
        );
        assert_eq!(rt;
            read_in(&mut source, &mut summary, 9),
            ReadIn {
                added: 0,
                stop: Stop::Faulted(fault),
            }
        );
        assert_eq!(rt;
            read_in(&mut source, &mut summary, 9),
            ReadIn {
                added: 0,
                stop: Stop::Faulted(fault),
            }
        );
        let mut rest = TextSource::new(b"");
        assert_eq!(rt;
            read_in(&mut rest, &mut summary, 1),
            ReadIn {
                added: 0,
                stop: Stop::End,
            }
        );
    }

    // What a read-in answers.
    fn answer(added: usize, stop: Stop) -> ReadIn {
        ReadIn { added, stop }
    }

    // A source of call 1, return, call 2, return, call 3, return and then the fault, read into a table with room for two functions.
    fn check_stops<S: Source>(rt: &impl Abort, source: &mut S, fault: Fault) {
        let mut rows = [Row::<Calls>::empty(); 3];
        let mut summary = Summary::new(&mut rows);
        let full = Stop::Rejected(Rejection::TooFewRows);
        assert_eq!(rt; read_in(source, &mut summary, 0), answer(0, Stop::Limit));
        assert_eq!(rt; read_in(source, &mut summary, 3), answer(3, Stop::Limit));
        // the rejected call has left the source, and what was added stays
        assert_eq!(rt; read_in(source, &mut summary, 9), answer(1, full));
        assert!(rt; summary.row_count() == 3 && summary.open_row() == 0);
        // so that its return closes a function that was entered before the trace, and needs a row as well
        assert_eq!(rt; read_in(source, &mut summary, 9), answer(0, full));
        // a limit of 0 comes before the fault, which stays
        assert_eq!(rt; read_in(source, &mut summary, 0), answer(0, Stop::Limit));
        assert_eq!(rt;
            read_in(source, &mut summary, 9),
            answer(0, Stop::Faulted(fault))
        );
        assert_eq!(rt;
            read_in(source, &mut summary, 9),
            answer(0, Stop::Faulted(fault))
        );
        assert!(rt; summary.row_count() == 3 && summary.level() == 0);
    }

    #[test]
    fn read_in_stops_for_four_reasons(rt: HostRuntime) {
        let mut text = TextSource::new(b"call 1\nback\ncall 2\nback\ncall 3\nback\ncall 0\n");
        check_stops(&rt, &mut text, Cause::OutOfRange.at(36));
        let mut bytes = ByteSource::new(&[1, 1, 2, 1, 2, 2, 1, 3, 2, 1, 0]);
        check_stops(&rt, &mut bytes, Cause::OutOfRange.at(9));
        let table = [
            Record::Call { function: 1 },
            Record::Return,
            Record::Call { function: 2 },
            Record::Return,
            Record::Call { function: 3 },
            Record::Return,
            Record::Call { function: 0 },
        ];
        check_stops(&rt, &mut TableSource::new(&table), Cause::OutOfRange.at(6));
    }

    // A limit that is reached comes first, also where nothing is left.
    #[test]
    fn read_in_meets_the_end(rt: HostRuntime) {
        let mut rows = [Row::<Calls>::empty(); 3];
        let mut summary = Summary::new(&mut rows);
        let mut source = ByteSource::new(&[1, 1, 2]);
        assert_eq!(rt;
            read_in(&mut source, &mut summary, 2),
            answer(2, Stop::Limit)
        );
        assert_eq!(rt;
            read_in(&mut source, &mut summary, 0),
            answer(0, Stop::Limit)
        );
        assert_eq!(rt; read_in(&mut source, &mut summary, 1), answer(0, Stop::End));
        assert_eq!(rt; read_in(&mut source, &mut summary, 1), answer(0, Stop::End));
    }

    #[test]
    fn levels_meet_in_a_tree(rt: HostRuntime) -> Result<(), Fail> {
        let mut rows = [Row::<Work>::empty(); 8];
        let mut summary = Summary::new(&mut rows);
        let mut source = TextSource::new(
            b"call 1\nsample 0 5 0 0\nunwind 2\ncall 1\nsample 0 7 0 0\ncall 2\nsample 0 1 0 0\n",
        );
        assert_eq!(rt;
            read_in(&mut source, &mut summary, 99),
            ReadIn {
                added: 7,
                stop: Stop::End,
            }
        );
        assert!(rt; summary.row_count() == 5 && summary.level() == 1);
        let tree = summary.finish();
        assert!(rt; tree.strays() == 1 && tree.open() == 2 && tree.row_count() == 3);
        assert!(rt; tree.row(3).is_none());
        let one = tree.row(1).ok_or("no row 1")?;
        assert!(rt; one.function == 1 && one.parent == 0 && one.value.total == 12);
        let mut short = [Work::new(9); 2];
        assert!(rt; tree.inclusive(&mut short).is_err());
        assert!(rt; short[0].total == 9 && short[1].total == 9);
        let mut all = [Work::new(9); 4];
        assert!(rt; tree.inclusive(&mut all).is_ok());
        assert!(rt;
            all[0].total == 13 && all[1].total == 13 && all[2].total == 1 && all[3].total == 9
        );
        let mut shape = [ShapeRow {
            function: 9,
            parent: 9,
        }; 4];
        assert!(rt; tree.shape(&mut shape).is_ok());
        assert!(rt; shape[2].function == 2 && shape[2].parent == 1 && shape[3].parent == 9);
        Ok(())
    }
}
