// The record that a line of a text writes: a word that names its kind, and its fields.
ghost use Rattle.std.specs.Prelude.{◌≡◌, true};
ghost use Rattle.trace.specs.Fields.{call_of, unwind_of, sample_of};
ghost use Rattle.trace.specs.Sources.{rest};
ghost use Rattle.trace.specs.Text.{number_of, first_field, no_word, field_list, first_kind, record_of, line_record};
ghost use Rattle.trace.specs.Words.{words_left, is_digits};

use crate::fault::Cause;
use crate::kind::Kind;
use crate::record::{Record, Sample};
use crate::token::{Token, Tokens};

// The most digits that a field has.
const MOST_DIGITS: usize = 10;

// The number that digits write, if a field has no more of them and the number fits its 32 bits. So many digits always fit 64 bits.
fn number_of(digits: &[u8]) -> Result<u32, Cause>
    requires { is_digits digits.now ≡ true }
    ensures { result ≡ number_of digits.now }
{
    if digits.len() > MOST_DIGITS {
        return Err(Cause::TooLarge);
    }
    let mut value: u64 = 0;
    for digit in digits {
        value = value * 10 + u64::from(*digit - b'0');
    }
    u32::try_from(value).map_err(|_| Cause::TooLarge)
}

// The next word as a field.
fn read_field(tokens: &mut Tokens) -> Result<u32, Cause>
    ensures field { result ≡ first_field (words_left tokens.old) }
    ensures rest { words_left tokens.new ≡ rest (words_left tokens.old) }
{
    match tokens.next() {
        Token::Digits(digits, _) => number_of(digits),
        Token::Word(_, _) => Err(Cause::BadField),
        Token::End => Err(Cause::CutShort),
    }
}

// No word is left.
fn read_end(tokens: &mut Tokens) -> Result<(), Cause>
    ensures { result ≡ no_word (words_left tokens.old) }
{
    match tokens.next() {
        Token::End => Ok(()),
        _ => Err(Cause::BadField),
    }
}

// The next word as the first of a line.
fn read_kind(tokens: &mut Tokens) -> Result<Kind, Cause>
    ensures kind { result ≡ first_kind (words_left tokens.old) }
    ensures rest { words_left tokens.new ≡ rest (words_left tokens.old) }
{
    match tokens.next() {
        Token::Word(word, _) => Kind::try_from(word),
        _ => Err(Cause::UnknownKind),
    }
}

// A call, if the function is in range. It and the two below serve text and bytes, which read the same fields.
pub fn call_of(function: u32) -> Result<Record, Cause>
    ensures { result ≡ call_of function }
{
    let function = u16::try_from(function)?;
    Record::Call { function }.checked()
}

// An unwind, if the count is in range.
pub fn unwind_of(count: u32) -> Result<Record, Cause>
    ensures { result ≡ unwind_of count }
{
    let count = u16::try_from(count)?;
    Record::Unwind { count }.checked()
}

// A sample, if its fields are in range.
pub fn sample_of(step: u32, weight: u32, site: u32, region: u32) -> Result<Record, Cause>
    ensures { result ≡ sample_of step weight site region }
{
    let site = u16::try_from(site)?;
    let region = u8::try_from(region)?;
    Record::Sample(Sample {
        step,
        weight,
        site,
        region,
    })
    .checked()
}

// So many fields, and no word after them.
fn read_fields<const N: usize>(tokens: &mut Tokens) -> Result<[u32; N], Cause>
    ensures { result ≡ field_list N (words_left tokens.old) }
{
    let mut fields = [0; N];
    for field in &mut fields {
        *field = read_field(tokens)?;
    }
    read_end(tokens)?;
    Ok(fields)
}

// A record of the kind by the words after the first.
fn read_record(kind: Kind, tokens: &mut Tokens) -> Result<Record, Cause>
    ensures { result ≡ record_of kind (words_left tokens.old) }
{
    match kind {
        Kind::Call => {
            let [function] = read_fields::<1>(tokens)?;
            call_of(function)
        }
        Kind::Return => {
            let [] = read_fields::<0>(tokens)?;
            Ok(Record::Return)
        }
        Kind::Unwind => {
            let [count] = read_fields::<1>(tokens)?;
            unwind_of(count)
        }
        Kind::Sample => {
            let [step, weight, site, region] = read_fields::<4>(tokens)?;
            sample_of(step, weight, site, region)
        }
    }
}

// The record that a line writes.
pub(crate) fn read_line(line: &[u8]) -> Result<Record, Cause>
    ensures { result ≡ line_record line.now }
{
    let mut tokens = Tokens::new(line);
    let kind = read_kind(&mut tokens)?;
    read_record(kind, &mut tokens)
}
