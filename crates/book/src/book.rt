// Reading a whole book.
ghost use Rattle.book.specs.Reading.{IsBookRead};

use crate::fault::{Fault, Reason};
use crate::reader::Reader;

// The most rules that a book may have.
const MOST_RULES: usize = 256;

// How many rules a text has, if it is a book.
pub fn read_book(text: &[u8]) -> Result<usize, Fault>
    ensures { IsBookRead text.now result }
{
    let mut reader = Reader::new(text);
    let mut count = 0;
    // the reader goes on by a rule, so that no range gives the places
    while !reader.is_at_end() {
        if count == MOST_RULES {
            reader.next();
            return Err(reader.fault(Reason::TooManyRules));
        }
        reader.rule()?;
        count += 1;
    }
    Ok(count)
}
