// Reading terms into the nodes of a rule.
//
// A term is in prefix order, so each word says how many terms come after it. The recursion is as deep
// as a term has operations one inside the other, and a rule has at most 32 operations in all: more are
// refused before they are read.
ghost use Rattle.std.specs.Prelude.{◌≡◌, ℕ, ◌+◌, ◌*◌, ◌<◌, ◌≤◌, length, MatchResult, nat_le};
ghost use Rattle.terms.specs.Items.{nodes_of, places_of};
ghost use Rattle.words.specs.Words.{bits};
ghost use Rattle.terms.specs.Limits.{ok_term};
ghost use Rattle.book.specs.Tokens.{arity, leaf_term, leaf_node, operation_node};
ghost use Rattle.book.specs.Reading.{IsLeafRead, NoLeaf, IsTermRead, NoTerm, IsTermsRead, NoTerms};

use crate::fault::{Fault, Reason};
use crate::reader::Reader;
use crate::token::{Leaf, Operation, Token};
use terms::{Node, RootList, RuleNodes};
use words::Width;

// A rule whose terms are being read, and how many operations it may still have.
#[derive(Drop)]
pub(crate) struct Draft {
    pub(crate) rule: RuleNodes,
    pub(crate) left: usize,
}

impl Leaf {
    // The largest number that may come after this kind of a leaf.
    fn largest(self, width: Width) -> u64
        ensures { (n : ℕ) → ok_term (bits width) (leaf_term self n) ≡ nat_le n result }
    {
        match self {
            Leaf::Any | Leaf::Con => 15,
            Leaf::Lit => width.mask(),
        }
    }

    fn node(self, n: u64) -> Node
        ensures { result ≡ leaf_node self n }
    {
        match self {
            Leaf::Any => Node::Any(n as usize),
            Leaf::Con => Node::Con(n as usize),
            Leaf::Lit => Node::Lit(n),
        }
    }
}

impl Operation {
    // How many parts an operation has.
    fn part_count(self) -> usize
        ensures { result ≡ arity self }
    {
        match self {
            Operation::Unary(_) => 1,
            Operation::Binary(_) => 2,
            Operation::Ite => 3,
        }
    }

    fn node(self, parts: &[usize]) -> Node
        requires { length parts.now ≡ arity self }
        ensures { result ≡ operation_node self parts.now }
    {
        match self {
            Operation::Unary(op) => Node::Unary(op, parts[0]),
            Operation::Binary(op) => Node::Binary(op, parts[0], parts[1]),
            Operation::Ite => Node::Ite(parts[0], parts[1], parts[2]),
        }
    }
}

impl Reader<'_> {
    // Reads the number of a leaf.
    fn leaf(&mut self, leaf: Leaf, rule: &mut RuleNodes) -> Result<usize, Fault>
        requires { length (nodes_of rule.old.nodes) < 102 }
        ensures text { self.new.text.now ≡ self.old.text.now }
        ensures read { MatchResult result (λ root. IsLeafRead self.old.text.now self.old.at leaf rule.old rule.new root self.new.at) (λ _. NoLeaf self.old.text.now self.old.at leaf rule.old.width) }
    {
        let n = self.number()?;
        if n > leaf.largest(rule.width) {
            return Err(self.fault(Reason::NumberTooLarge));
        }
        Ok(rule.push(leaf.node(n)))
    }

    // Reads a term.
    #[cycle(term_terms)]
    fn term(&mut self, draft: &mut Draft) -> Result<usize, Fault>
        requires { length (nodes_of draft.old.rule.nodes) + (3 * draft.old.left + 1) ≤ 102 }
        ensures text { self.new.text.now ≡ self.old.text.now }
        ensures read { MatchResult result (λ root. IsTermRead self.old.text.now self.old.at draft.old.left draft.old.rule draft.new.rule root self.new.at draft.new.left) (λ _. NoTerm self.old.text.now self.old.at draft.old.left draft.old.rule.width) }
    {
        match self.next() {
            Token::Leaf(leaf) => self.leaf(leaf, &mut draft.rule),
            Token::Operation(op) => {
                if draft.left == 0 {
                    return Err(self.fault(Reason::TooManyOperations));
                }
                draft.left -= 1;
                let parts = self.terms(op.part_count(), draft)?;
                Ok(draft.rule.push(op.node(parts.as_slice())))
            }
            _ => Err(self.fault(Reason::TermExpected)),
        }
    }

    // Reads so many terms.
    #[cycle(term_terms)]
    pub(crate) fn terms(&mut self, count: usize, draft: &mut Draft) -> Result<RootList, Fault>
        requires count { count ≤ 6 }
        requires room { length (nodes_of draft.old.rule.nodes) + (3 * draft.old.left + count) ≤ 102 }
        ensures text { self.new.text.now ≡ self.old.text.now }
        ensures read { MatchResult result (λ roots. IsTermsRead self.old.text.now self.old.at count draft.old.left draft.old.rule draft.new.rule (places_of roots) self.new.at draft.new.left) (λ _. NoTerms self.old.text.now self.old.at count draft.old.left draft.old.rule.width) }
    {
        let mut roots = RootList::new();
        for _ in 0..count {
            roots.push(self.term(draft)?);
        }
        Ok(roots)
    }
}
