// The rules of a book, one after the other.
ghost use Rattle.std.specs.Prelude.{◌≡◌, ◌+◌, MatchOption, MatchResult};
ghost use Rattle.std.specs.Iterator.{at_most};
ghost use Rattle.book.specs.Reading.{HasRules, IsRuleRead, IsBookRead};

use crate::book::read_book;
use crate::fault::Fault;
use crate::reader::Reader;
use terms::RuleNodes;

// The rules of a book that were not read yet, and how many they are. After them the text ends.
#[derive(Clone, Copy, Debug)]
pub struct Rules<'a> {
    pub reader: Reader<'a>,
    pub left: usize,
    ghost coming: { ∥ HasRules reader.text.now reader.at left ∥₁ },
}

impl<'a> Rules<'a> {
    // The rules of a text, if it is a book.
    pub fn of(text: &'a [u8]) -> Result<Rules<'a>, Fault>
        ensures { MatchResult result (λ rs. IsBookRead text.now (Ok rs.left) × (rs.reader.text.now ≡ text.now) × (rs.reader.at ≡ 0)) (λ fault. IsBookRead text.now (Err fault)) }
    {
        let left = read_book(text)?;
        Ok(Rules {
            reader: Reader::new(text),
            left,
        })
    }
}

impl Iterator for Rules<'_> {
    type Item = RuleNodes;

    ghost next_gives = { λ old rule new. (new.reader.text.now ≡ old.reader.text.now) × MatchOption rule (old.left ≡ 0) (λ x. IsRuleRead old.reader.text.now old.reader.at x new.reader.at × (new.left + 1 ≡ old.left)) };

    ghost remaining = { λ rs. at_most rs.left };

    fn next(&mut self) -> Option<RuleNodes> {
        let Rules { mut reader, left } = *self;
        if left == 0 {
            return None;
        }
        let Ok(rule) = reader.rule() else {
            unreachable!()
        };
        *self = Rules {
            reader,
            left: left - 1,
        };
        Some(rule)
    }
}
