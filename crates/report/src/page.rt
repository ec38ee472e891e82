// The printed page: one line for each row of the outline, and a footer; or one line that says where reading stopped.
ghost use Rattle.std.specs.Prelude.{◌≡◌, IfOk, Some, string_bytes};
ghost use Rattle.report.specs.Name.{name_of};
ghost use Rattle.report.specs.Text.{name_text, line_text, footer_text, stop_text, page_bytes, ended};

use std::alloc::{AllocError, Global};
use std::fmt;

// What stands in the name column of a row.
#[derive(Clone, Copy, PartialEq, Eq, Debug)]
pub enum Name {
    // the row above all calls
    Root,
    // a function that is known by its number alone
    Function(u16),
}

// The root has no function, and shows 0 for one.
impl From<u16> for Name {
    ghost from_gives = { λ function name. name ≡ name_of function };

    fn from(function: u16) -> Name {
        match function {
            0 => Name::Root,
            _ => Name::Function(function),
        }
    }
}

impl fmt::Display for Name {
    ghost output = { λ n. Some (name_text n) };

    fn fmt<W: fmt::Write>(&self, f: &mut fmt::Formatter<W>) -> fmt::Result {
        match self {
            Name::Root => write!(f, "."),
            Name::Function(number) => write!(f, "#{number}"),
        }
    }
}

// One row as it is printed. `own_calls` and `own_work` are the row's alone; `calls` and `work` count the rows below it too.
#[derive(Clone, Copy, PartialEq, Eq, Debug)]
pub struct PageLine {
    pub depth: u16,
    pub name: Name,
    pub own_calls: u64,
    pub own_work: u64,
    pub calls: u64,
    pub work: u64,
}

impl fmt::Display for PageLine {
    ghost output = { λ l. Some (line_text l) };

    fn fmt<W: fmt::Write>(&self, f: &mut fmt::Formatter<W>) -> fmt::Result {
        write!(
            f,
            "{} {} {} {} {} {}",
            self.depth, self.name, self.own_calls, self.own_work, self.calls, self.work
        )
    }
}

// What the records left over: returns with no open call, and calls that were still open.
#[derive(Clone, Copy, PartialEq, Eq, Debug)]
pub struct Footer {
    pub strays: usize,
    pub open: usize,
}

impl fmt::Display for Footer {
    ghost output = { λ x. Some (footer_text x) };

    fn fmt<W: fmt::Write>(&self, f: &mut fmt::Formatter<W>) -> fmt::Result {
        write!(f, "strays {} open {}", self.strays, self.open)
    }
}

// Why reading stopped, at which place, and how many times the cause was passed on.
#[derive(Clone, Copy, PartialEq, Eq, Debug)]
pub struct StopLine {
    pub cause: u8,
    pub place: usize,
    pub passed: u8,
}

impl fmt::Display for StopLine {
    ghost output = { λ x. Some (stop_text x) };

    fn fmt<W: fmt::Write>(&self, f: &mut fmt::Formatter<W>) -> fmt::Result {
        write!(f, "stopped {} {} {}", self.cause, self.place, self.passed)
    }
}

// The whole page: the lines in their order, then the footer.
pub fn page_text(heap: Global, lines: &[PageLine], footer: &Footer) -> Result<String, AllocError>
    ensures { IfOk result (λ s. string_bytes s ≡ page_bytes lines.now footer.now) }
{
    let mut page = String::new(heap);
    for line in lines {
        writeln!(page, "{line}")?;
    }
    writeln!(page, "{footer}")?;
    Ok(page)
}

// The one line that is printed in place of a page where reading stopped.
pub fn stop_text(heap: Global, stop: &StopLine) -> Result<String, AllocError>
    ensures { IfOk result (λ s. string_bytes s ≡ ended (stop_text stop.now)) }
{
    format!(in heap; "{stop}\n")
}
