// The words of a line as tokens, which borrow the line.
ghost use Rattle.std.specs.Prelude.{◌≡◌};
ghost use Rattle.trace.specs.Sources.{rest};
ghost use Rattle.trace.specs.Words.{words, words_left, all_digits, is_digits, shown, first_token, second_place};

use crate::piece::piece_end;

// A word of a line, and its place: where in the line it begins.
#[derive(Clone, Copy)]
pub enum Token<'a> {
    // any word that is not all digits, and the empty one
    Word(&'a [u8], usize),
    // a word of digits, at least one
    Digits(&'a [u8], usize),
    // no word is left
    End,
}

// The words of a line that are still to come. Each space begins a word, perhaps an empty one.
#[derive(Drop)]
pub struct Tokens<'a> {
    line: &'a [u8],
    // where the next word begins; past the line where none is left
    at: usize,
}

// Whether each byte is one of `0` to `9`.
fn has_digits_only(word: &[u8]) -> bool
    ensures { result ≡ all_digits word.now }
{
    word.iter().all(|byte| byte.is_ascii_digit())
}

// Whether there are bytes, and each is a digit: an empty word is no number.
fn is_digits(word: &[u8]) -> bool
    ensures { result ≡ is_digits word.now }
{
    !word.is_empty() && has_digits_only(word)
}

impl<'a> Tokens<'a> {
    // All words of the line.
    pub fn new(line: &'a [u8]) -> Tokens<'a>
        ensures words { words_left result ≡ words line.now }
        ensures place { result.at ≡ 0 }
    {
        Tokens { line, at: 0 }
    }

    // The next word, which leaves the words still to come.
    pub fn next(&mut self) -> Token<'a>
        ensures token { shown result ≡ first_token (words_left self.old) self.old.at }
        ensures rest { words_left self.new ≡ rest (words_left self.old) }
        ensures place { self.new.at ≡ second_place (words_left self.old) self.old.at }
    {
        let line = self.line;
        let at = self.at;
        if at > line.len() {
            return Token::End;
        }
        let end = piece_end(line, at, b' ');
        let word = &line[at..end];
        self.at = end + 1;
        if is_digits(word) {
            Token::Digits(word, at)
        } else {
            Token::Word(word, at)
        }
    }
}
