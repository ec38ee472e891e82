// A trace written as text, one record to a line.
ghost use Rattle.std.specs.List.{position_from};
ghost use Rattle.std.specs.Prelude.{◌≡◌, ◌==◌, drop, not};
ghost use Rattle.trace.specs.Text.{text_records, text_ending, records_left, ending_left};
ghost use Rattle.trace.specs.TextRanged.{text_ranged};

use crate::fault::Fault;
use crate::line::read_line;
use crate::piece::piece_end;
use crate::record::Record;
use crate::source::Source;

// The records of a text. A line ends at a line end or with the text, and an empty one is skipped.
#[derive(Drop)]
pub struct TextSource<'a> {
    text: &'a [u8],
    // where the next line begins; at or past the text's end where none is left
    at: usize,
}

impl<'a> TextSource<'a> {
    // All records of the text.
    pub fn new(text: &'a [u8]) -> TextSource<'a>
        ensures records { records_left result ≡ text_records text.now }
        ensures ending { ending_left result ≡ text_ending 0 text.now }
    {
        TextSource { text, at: 0 }
    }
}

impl Source for TextSource<'_> {
    ghost records = { λ s. records_left s };

    ghost ending = { λ s. ending_left s };

    ghost ranged = { λ s. text_ranged (drop s.at s.text.now) };

    // The place moves on only past a line that is a record, so that a fault and the end are answered again.
    fn next(&mut self) -> Result<Option<Record>, Fault> {
        let text = self.text;
        let Some(at) = first_line(text, self.at) else {
            return Ok(None);
        };
        let end = piece_end(text, at, b'\n');
        let record = read_line(&text[at..end]).map_err(|cause| cause.at(at))?;
        self.at = end + 1;
        Ok(Some(record))
    }
}

// The place of the first line from `at` on that is not empty, if there is one. Inlined, its loop would carry along what the caller
// makes of the place, at each of many empty lines.
#[inline(never)]
fn first_line(text: &[u8], at: usize) -> Option<usize>
    ensures { result ≡ position_from (λ b. not (b == 10)) at (drop at text.now) }
{
    let rest = text.get(at..)?;
    let skipped = rest.iter().position(|byte| *byte != b'\n')?;
    Some(at + skipped)
}
