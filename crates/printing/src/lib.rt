// From the bytes of a text trace to what is printed: the page of its calling context tree, or the one line of a stop.

#![tactic(auto)]

ghost use Rattle.std.specs.Prelude.{◌≡◌, ◌<◌, length, IfOk, vec_len, ◌≢◌};
ghost use Rattle.std.specs.List.{AllByRecursion};
ghost use Rattle.rows.specs.ShapeColumn.{IsShape};
ghost use Rattle.profile.specs.declared.reading.Stop.TheVariants.{Limit};
ghost use Rattle.printing.specs.declared.PrintError.TheVariants.{NoMemory};
ghost use Rattle.printing.specs.Prints.{page_line, stopping, shown, Prints, Tells, GoesOn};

use metrics::calls::Calls;
use metrics::metric::Metric;
use metrics::pair::Pair;
use metrics::work::Work;
use profile::reading::{ReadIn, Stop, read_in};
use profile::summary::Summary;
use profile::tree::{Tree, TreeRow};
use report::fault::OutlineError;
use report::outline::{Line, outline};
use report::page::{Footer, Name, PageLine, StopLine, page_text, stop_text};
use rows::row::Row;
use rows::shape::ShapeRow;
use std::alloc::{AllocError, Global};
use std::error::Error;
use std::fmt;
use trace::text::TextSource;

// What is measured for a page: calls beside work.
pub type Cost = Pair<Calls, Work>;

// A longer trace is not read.
pub const MOST_BYTES: usize = 65_536;

// The cause of a stop where the trace is longer.
const INPUT_TOO_LONG: u8 = 15;

// More records than a trace of so many bytes can hold, so that a read-in never stops at its limit.
const MOST_RECORDS: usize = 65_538;

// The rows that a page is made in.
const ROWS: usize = 1_024;

// Why there is no page.
#[derive(PartialEq, Eq, Debug, Drop)]
pub enum PrintError {
    // reading stopped; the one line, with its end, that is printed in place of a page
    Stopped(String),
    // there is no memory for what is printed
    NoMemory(AllocError),
}

impl From<AllocError> for PrintError {
    ghost from_gives = { λ error r. r ≡ NoMemory error };

    fn from(error: AllocError) -> PrintError {
        PrintError::NoMemory(error)
    }
}

// A stop shows its line, as it is printed.
impl fmt::Display for PrintError {
    ghost output = { λ error. shown error };

    fn fmt<W: fmt::Write>(&self, f: &mut fmt::Formatter<W>) -> fmt::Result {
        match self {
            PrintError::Stopped(line) => write!(f, "{line}"),
            PrintError::NoMemory(error) => write!(f, "{error}"),
        }
    }
}

impl Error for PrintError {}

// The tree's shape in a column of its own.
fn shape_of(heap: Global, tree: &Tree<'_, Cost>) -> Result<Vec<ShapeRow>, AllocError>
    ensures { IfOk result (λ v. IsShape v.items × (vec_len v ≡ tree.now.table.count)) }
{
    let mut shape = vec![in heap; ShapeRow {
        function: 0,
        parent: 0
    }; tree.row_count()]?;
    match tree.shape(shape.as_mut_slice()) {
        Ok(()) => Ok(shape),
        Err(_) => unreachable(),
    }
}

// The tree's rows in outline order.
fn order_of(heap: Global, tree: &Tree<'_, Cost>) -> Result<Vec<Line>, AllocError>
    ensures { IfOk result (λ v. (vec_len v ≡ tree.now.table.count) × AllByRecursion (λ line. line.row < tree.now.table.count) v.items) }
{
    let shape = shape_of(heap, tree)?;
    let mut order = vec![in heap; Line { row: 0, depth: 0 }; shape.len()]?;
    match outline(heap, &shape, order.as_mut_slice()) {
        Ok(()) => Ok(order),
        Err(OutlineError::NoMemory) => Err(AllocError),
        Err(_) => unreachable(),
    }
}

// Each row's inclusive cost.
fn inclusive_of(heap: Global, tree: &Tree<'_, Cost>) -> Result<Vec<Cost>, AllocError>
    ensures { IfOk result (λ v. vec_len v ≡ tree.now.table.count) }
{
    let mut inclusive = vec![in heap; Cost::unit(); tree.row_count()]?;
    match tree.inclusive(inclusive.as_mut_slice()) {
        Ok(()) => Ok(inclusive),
        Err(_) => unreachable(),
    }
}

// One row as it is printed.
fn page_line(depth: u16, row: TreeRow<Cost>, inclusive: Cost) -> PageLine
    ensures { result ≡ page_line depth row inclusive }
{
    PageLine {
        depth,
        name: Name::from(row.function),
        own_calls: row.value.first.total,
        own_work: row.value.second.total,
        calls: inclusive.first.total,
        work: inclusive.second.total,
    }
}

// The lines of the tree's rows, in outline order.
fn lines_of(heap: Global, tree: &Tree<'_, Cost>) -> Result<Vec<PageLine>, AllocError>
    ensures { IfOk result (λ v. vec_len v ≡ tree.now.table.count) }
{
    let order = order_of(heap, tree)?;
    let inclusive = inclusive_of(heap, tree)?;
    let mut lines = Vec::new(heap);
    for line in &order {
        let at = usize::from(line.row);
        match tree.row(at) {
            Some(row) => lines.push(page_line(line.depth, row, inclusive[at]))?,
            None => unreachable(),
        }
    }
    Ok(lines)
}

// The page of a tree.
fn page_of(heap: Global, tree: &Tree<'_, Cost>) -> Result<String, AllocError> {
    let lines = lines_of(heap, tree)?;
    let footer = Footer {
        strays: tree.strays(),
        open: tree.open(),
    };
    page_text(heap, &lines, &footer)
}

// The error that a stop is: its line, if there is memory for that.
fn stopped(heap: Global, line: StopLine) -> PrintError
    ensures { Tells result line }
{
    stop_text(heap, &line).map_or_else(PrintError::NoMemory, PrintError::Stopped)
}

// Goes on where the source was read to its end, and else stops with the line of what stopped the read-in.
fn read_through(heap: Global, read: ReadIn) -> Result<(), PrintError>
    requires { read.stop ≢ Limit }
    ensures { GoesOn (stopping read.added read.stop) result }
{
    let line = match read.stop {
        Stop::Limit => unreachable(),
        Stop::End => return Ok(()),
        Stop::Faulted(fault) => StopLine {
            cause: u8::from(fault.cause),
            place: fault.place,
            passed: fault.passed,
        },
        Stop::Rejected(rejection) => StopLine {
            cause: u8::from(rejection),
            place: read.added,
            passed: 0,
        },
    };
    Err(stopped(heap, line))
}

// What is printed of a text trace.
pub fn print_trace(heap: Global, text: &[u8]) -> Result<String, PrintError>
    ensures { Prints text.now result }
{
    if text.len() > MOST_BYTES {
        let line = StopLine {
            cause: INPUT_TOO_LONG,
            place: MOST_BYTES,
            passed: 0,
        };
        return Err(stopped(heap, line));
    }
    let mut table = vec![in heap; Row::<Cost>::empty(); ROWS]?;
    let mut summary = Summary::new(table.as_mut_slice());
    let mut source = TextSource::new(text);
    let read = read_in(&mut source, &mut summary, MOST_RECORDS);
    read_through(heap, read)?;
    Ok(page_of(heap, &summary.finish())?)
}
