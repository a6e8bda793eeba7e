// Where a place of a text is, as a reader counts.
ghost use Rattle.std.specs.Prelude.{◌≡◌, not, ◌&&◌, min, length};
ghost use Rattle.book.specs.Text.{blank};
ghost use Rattle.book.specs.Place.{line_at, word_at};

use crate::reader::is_blank;
use std::fmt;

// A line, and a word of the line, both from 1 on.
#[derive(Clone, Copy, Debug, PartialEq, Eq)]
pub struct Position {
    pub line: usize,
    pub word: usize,
}

impl fmt::Display for Position {
    fn fmt<W: fmt::Write>(&self, f: &mut fmt::Formatter<W>) -> fmt::Result {
        write!(f, "line {}, word {}", self.line, self.word)
    }
}

// Whether a word begins with a character, which may come after a blank or the text's start.
fn begins_word(after_blank: bool, c: u8) -> bool
    ensures { result ≡ (not (blank c) && after_blank) }
{
    after_blank && !is_blank(c)
}

// The position of a place, or of the text's end if the place is past it.
pub fn locate(text: &[u8], at: usize) -> Position
    ensures line { result.line ≡ line_at text.now (min at (length text.now)) }
    ensures word { result.word ≡ word_at text.now (min at (length text.now)) }
{
    let mut line = 1;
    let mut word = 1;
    let mut after_blank = true;
    for c in &text[..at.min(text.len())] {
        if *c == b'\n' {
            line += 1;
            word = 1;
        } else if begins_word(after_blank, *c) {
            word += 1;
        }
        after_blank = is_blank(*c);
    }
    Position { line, word }
}
