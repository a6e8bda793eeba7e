// The numbering of terms: each term is an entry of the table, after the entries of its parts.
ghost use Rattle.std.specs.Prelude.{◌≡◌, ℕ, ◌+◌, ◌<◌, ◌≤◌, true, [], length};
ghost use Rattle.terms.specs.Items.{nodes_of, places_of};
ghost use Rattle.terms.specs.Nodes.{Stands};
ghost use Rattle.terms.specs.Limits.{ok_rule};
ghost use Rattle.terms.specs.Represents.{Represents};
ghost use Rattle.terms.specs.Terms.{Term, Rule, terms};
ghost use Rattle.encoding.specs.Table.{sorted, by_divider, product, divided, operated, numbered_all, entries_in, Numbers};

use crate::entry::{DivisionWord, Entry};
use crate::table::Table;
use terms::{Node, RootList, RuleNodes};
use words::BinaryOp;

// An operation whose operands may be exchanged, with the earlier one first.
fn sorted(op: BinaryOp, i: usize, j: usize) -> Entry
    ensures { result ≡ sorted op i j }
{
    Entry::Binary(op, i.min(j), i.max(j))
}

// The product of words i and j, where entry k may be the division by i of which j is the quotient.
fn by_divider(entry: Entry, k: usize, i: usize, j: usize) -> Entry
    ensures { result ≡ by_divider entry k i j }
{
    match entry {
        Entry::Divide(_, y) if y == i => Entry::Part(k, DivisionWord::Product),
        _ => Entry::Binary(BinaryOp::Mul, i, j),
    }
}

impl Table {
    // The product of words i and j, i before j: where j is the quotient of a division by i, the one
    // that the division has made.
    fn product(&self, i: usize, j: usize) -> Entry
        ensures { result ≡ product self.now i j }
    {
        match self.entry(j) {
            Entry::Part(k, DivisionWord::Quotient) => by_divider(self.entry(k), k, i, j),
            _ => Entry::Binary(BinaryOp::Mul, i, j),
        }
    }

    // The place of a word of the division of i by j.
    fn divide(&mut self, word: DivisionWord, i: usize, j: usize) -> usize
        requires { length self.old + 2 ≤ 134 }
        ensures table { self.new ≡ (divided word i j self.old).0 }
        ensures place { result ≡ (divided word i j self.old).1 }
        ensures kept { length self.old ≤ length self.new }
        ensures more { length self.new ≤ length self.old + 2 }
    {
        let k = self.place(Entry::Divide(i, j));
        self.place(Entry::Part(k, word))
    }

    // The place of an operation on entries i and j.
    fn operate(&mut self, op: BinaryOp, i: usize, j: usize) -> usize
        requires { length self.old + 2 ≤ 134 }
        ensures table { self.new ≡ (operated op i j self.old).0 }
        ensures place { result ≡ (operated op i j self.old).1 }
        ensures kept { length self.old ≤ length self.new }
        ensures more { length self.new ≤ length self.old + 2 }
    {
        match op {
            BinaryOp::Mul => {
                let product = self.product(i.min(j), i.max(j));
                self.place(product)
            }
            BinaryOp::Udiv => self.divide(DivisionWord::Quotient, i, j),
            BinaryOp::Urem => self.divide(DivisionWord::Remainder, i, j),
            BinaryOp::Add | BinaryOp::And | BinaryOp::Or | BinaryOp::Xor | BinaryOp::Comp =>
                self.place(sorted(op, i, j)),
            BinaryOp::Sub
            | BinaryOp::Shl
            | BinaryOp::Lshr
            | BinaryOp::Ashr
            | BinaryOp::Ult
            | BinaryOp::Slt => self.place(Entry::Binary(op, i, j)),
        }
    }
}

// The place of the term at node i, which is numbered after its parts.
pub fn number_term(rule: &RuleNodes, i: usize, table: &mut Table) -> usize
    requires there { i < length (nodes_of rule.now.nodes) }
    requires room { (e : Term) × Stands (nodes_of rule.now.nodes) i e × (length table.old + entries_in e ≤ 134) }
    ensures { Numbers (nodes_of rule.now.nodes) i table.old table.new result }
{
    let node = rule.node(i);
    match node {
        Node::Any(k) => table.place(Entry::Any(k)),
        Node::Con(k) => table.place(Entry::Con(k)),
        Node::Lit(x) => table.place(Entry::Number(x)),
        Node::Unary(op, j) => {
            let part = number_term(rule, j, table);
            table.place(Entry::Unary(op, part))
        }
        Node::Binary(op, j, k) => {
            let left = number_term(rule, j, table);
            let right = number_term(rule, k, table);
            table.operate(op, left, right)
        }
        Node::Ite(h, j, k) => {
            let test = number_term(rule, h, table);
            let then = number_term(rule, j, table);
            let other = number_term(rule, k, table);
            table.place(Entry::Ite(test, then, other))
        }
    }
}

// The table of a rule, and the places of its terms.
#[derive(Clone, Copy)]
pub struct Numbering {
    pub table: Table,
    pub places: RootList,
}

// Numbers the terms of a rule: the needed ones, then the first side, then the second.
pub fn number_rule(rule: &RuleNodes) -> Numbering
    requires { (r : Rule) × Represents rule.now r × (ok_rule r ≡ true) }
    ensures table { (r : Rule) → Represents rule.now r → result.table ≡ (numbered_all (terms r) []).0 }
    ensures places { (r : Rule) → Represents rule.now r → places_of result.places ≡ (numbered_all (terms r) []).1 }
{
    let mut table = Table::new();
    let mut places = RootList::new();
    for root in rule.roots.as_slice() {
        places.push(number_term(rule, *root, &mut table));
    }
    Numbering { table, places }
}
