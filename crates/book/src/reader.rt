// The words of a text, one after the other.
ghost use Rattle.std.specs.Prelude.{◌≡◌, ◌<◌, ◌≤◌, false, not, [], length, drop, Decides, MatchResult, slice_index};
ghost use Rattle.std.specs.List.{prefix_len};
ghost use Rattle.book.specs.Text.{blank};
ghost use Rattle.book.specs.Scan.{rest, Next};
ghost use Rattle.book.specs.Reading.{IsNumberRead, NoNumber};

use crate::fault::{Fault, Reason};
use crate::token::Token;

// A text, and how far it was read: up to `at`. The last word that was read begins at `start`.
#[derive(Clone, Copy, Debug)]
pub struct Reader<'a> {
    pub text: &'a [u8],
    pub start: usize,
    pub at: usize,
    ghost inside: { at ≤ length text.now },
}

pub(crate) fn is_blank(c: u8) -> bool
    ensures { result ≡ blank c }
{
    c == b' ' || c == b'\n'
}

// How many blanks a text begins with. One function for this and the next would take the test as a
// closure, of which its contract would have to speak.
fn blank_len(text: &[u8]) -> usize
    ensures within { result ≤ length text.now }
    ensures blanks { result ≡ prefix_len blank text.now }
{
    text.iter().take_while(|c| is_blank(**c)).count()
}

// How long the word is that a text begins with.
fn word_len(text: &[u8]) -> usize
    ensures within { result ≤ length text.now }
    ensures characters { result ≡ prefix_len (λ c. not (blank c)) text.now }
{
    text.iter().take_while(|c| !is_blank(**c)).count()
}

impl<'a> Reader<'a> {
    // A reader that has read nothing.
    pub fn new(text: &'a [u8]) -> Reader<'a>
        ensures text { result.text.now ≡ text.now }
        ensures at { result.at ≡ 0 }
    {
        Reader {
            text,
            start: 0,
            at: 0,
        }
    }

    // The text that wasn't read yet.
    fn rest(&self) -> &'a [u8]
        ensures { result.now ≡ drop self.now.at self.now.text.now }
    {
        &self.text[self.at..]
    }

    // Whether no word comes any more.
    pub(crate) fn is_at_end(&self) -> bool
        ensures { Decides result (rest self.now.text.now self.now.at ≡ []) }
    {
        let mut ahead = *self;
        matches!(ahead.next(), Token::End)
    }

    // What is wrong with the word that was read last.
    pub(crate) fn fault(&self, reason: Reason) -> Fault {
        Fault {
            at: self.start,
            reason,
        }
    }

    // Goes on to where the next word begins, or to the text's end.
    fn skip_blanks(&mut self)
        ensures text { self.new.text.now ≡ self.old.text.now }
        ensures from { self.old.at ≤ self.new.at }
        ensures words { rest self.new.text.now self.new.at ≡ rest self.old.text.now self.old.at }
        ensures stops { self.new.at < length self.new.text.now → blank (slice_index self.new.text.now self.new.at) ≡ false }
    {
        self.at += blank_len(self.rest());
    }

    // Reads the next word.
    pub(crate) fn next(&mut self) -> Token
        ensures text { self.new.text.now ≡ self.old.text.now }
        ensures next { Next self.old.text.now self.old.at result self.new.start self.new.at }
    {
        self.skip_blanks();
        self.start = self.at;
        let rest = self.rest();
        let length = word_len(rest);
        if length == 0 {
            return Token::End;
        }
        self.at += length;
        Token::from(&rest[..length])
    }

    // Reads a number.
    pub(crate) fn number(&mut self) -> Result<u64, Fault>
        ensures text { self.new.text.now ≡ self.old.text.now }
        ensures read { MatchResult result (λ n. IsNumberRead self.old.text.now self.old.at n self.new.at) (λ _. NoNumber self.old.text.now self.old.at) }
    {
        let Token::Number(n) = self.next() else {
            return Err(self.fault(Reason::NumberExpected));
        };
        Ok(n)
    }
}
