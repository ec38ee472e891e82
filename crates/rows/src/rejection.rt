// Why a call is rejected.
ghost use Rattle.std.specs.Prelude.{◌≡◌};
ghost use Rattle.rows.specs.Numbers.{number};

// What a call answers that does nothing.
#[derive(Clone, Copy, PartialEq, Eq, Debug)]
pub enum Rejection {
    // a field of the record is outside its range
    OutOfRange,
    // the table has no row, or more than 65,535
    TableSize,
    // the result has more rows than the table
    TooFewRows,
    // the result has a path longer than 512
    PathTooLong,
}

// The number by which a rejection is printed.
impl From<Rejection> for u8 {
    ghost from_gives = { λ rejection n. n ≡ number rejection };

    fn from(rejection: Rejection) -> u8 {
        match rejection {
            Rejection::OutOfRange => 4,
            Rejection::TableSize => 8,
            Rejection::TooFewRows => 9,
            Rejection::PathTooLong => 10,
        }
    }
}
