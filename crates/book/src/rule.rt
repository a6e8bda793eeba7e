// Reading a rule.
ghost use Rattle.std.specs.Prelude.{◌≡◌, MatchResult};
ghost use Rattle.book.specs.Reading.{IsHeaderRead, NoHeader, IsRuleRead, NoRule};

use crate::fault::{Fault, Reason};
use crate::reader::Reader;
use crate::term::Draft;
use crate::token::Token;
use terms::RuleNodes;
use words::Width;

// The most terms that a rule may need, and the most operations that it may have.
const MOST_NEEDED: u64 = 4;

const MOST_OPERATIONS: usize = 32;

// The head of a rule: its width, and how many terms it needs.
#[derive(Clone, Copy)]
struct Header {
    width: Width,
    needed: usize,
}

impl Reader<'_> {
    // Reads the words before a rule's terms.
    fn header(&mut self) -> Result<Header, Fault>
        ensures text { self.new.text.now ≡ self.old.text.now }
        ensures read { MatchResult result (λ h. IsHeaderRead self.old.text.now self.old.at h.width h.needed self.new.at) (λ _. NoHeader self.old.text.now self.old.at) }
    {
        let Token::Rule = self.next() else {
            return Err(self.fault(Reason::RuleExpected));
        };
        let bits = self.number()?;
        let Ok(width) = Width::try_from(bits) else {
            return Err(self.fault(Reason::WidthExpected));
        };
        let needed = self.number()?;
        if needed > MOST_NEEDED {
            return Err(self.fault(Reason::NeededExpected));
        }
        Ok(Header {
            width,
            needed: needed as usize,
        })
    }

    // Reads a rule.
    pub fn rule(&mut self) -> Result<RuleNodes, Fault>
        ensures text { self.new.text.now ≡ self.old.text.now }
        ensures read { MatchResult result (λ x. IsRuleRead self.old.text.now self.old.at x self.new.at) (λ _. NoRule self.old.text.now self.old.at) }
    {
        let header = self.header()?;
        let mut draft = Draft {
            rule: RuleNodes::new(header.width),
            left: MOST_OPERATIONS,
        };
        let roots = self.terms(header.needed + 2, &mut draft)?;
        let Draft { mut rule, .. } = draft;
        rule.set_roots(roots);
        Ok(rule)
    }
}
