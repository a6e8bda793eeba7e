// The values of a rule's terms at given words for its names.
ghost use Rattle.std.specs.Prelude.{◌≡◌, ℕ, ◌^◌, ◌<◌, true, ◌≢◌, ◌↔◌, length, Decides, IsTrue, EachIndex, All, slice_index};
ghost use Rattle.terms.specs.Items.{nodes_of};
ghost use Rattle.words.specs.Words.{bits};
ghost use Rattle.terms.specs.Nodes.{Stands, sound};
ghost use Rattle.terms.specs.Represents.{Represents};
ghost use Rattle.terms.specs.Terms.{Term, Rule, eval, Fails};
ghost use Rattle.terms.specs.Values.{AreWords, node_value};

use super::{Assignment, Node, RuleNodes};
use words::{apply1, apply2};

impl Assignment {
    // The value of a node, from those of the nodes before it.
    fn node_value(&self, node: Node, before: &[u64]) -> u64
        requires sound { sound (bits self.now.width) (length before.now) node ≡ true }
        requires words { AreWords (bits self.now.width) (length before.now) before.now }
        ensures value { result ≡ node_value (bits self.now.width) self.now.any self.now.con before.now node }
        ensures word { result < 2 ^ bits self.now.width }
    {
        match node {
            Node::Any(k) => self.any[k],
            Node::Con(k) => self.con[k],
            Node::Lit(n) => n,
            Node::Unary(op, j) => apply1(self.width, op, before[j]),
            Node::Binary(op, j, k) => apply2(self.width, op, before[j], before[k]),
            Node::Ite(h, j, k) => { if before[h] == 0 { before[k] } else { before[j] } }
        }
    }
}

// Writes the value of each node's term. The table has a place for each node that may be, and not only
// for those that are, since a root may be any place below 102.
pub fn evaluate(rule: &RuleNodes, assignment: &Assignment, values: &mut [u64; 102])
    requires { assignment.now.width ≡ rule.now.width }
    ensures { (i : ℕ) (e : Term) → i < length (nodes_of rule.now.nodes) → Stands (nodes_of rule.now.nodes) i e → slice_index values.new i ≡ eval (bits rule.now.width) (λ k. slice_index assignment.now.any k) (λ k. slice_index assignment.now.con k) e }
{
    let nodes = rule.nodes.as_slice();
    for (i, node) in nodes.iter().enumerate() {
        values[i] = assignment.node_value(*node, &values[..i]);
    }
}

// Whether each of the needed terms, given by their roots, is other than 0.
fn all_met(needed: &[usize], values: &[u64; 102]) -> bool
    requires { All (λ root. root < 102) needed.now }
    ensures { IsTrue result ↔ EachIndex needed.now (λ k. slice_index values.now (slice_index needed.now k) ≢ 0) }
{
    needed.iter().all(|root| values[*root] != 0)
}

// Whether the rule fails at these values: each needed term is other than 0, and the sides differ.
pub fn fails_at(rule: &RuleNodes, assignment: &Assignment) -> bool
    requires { assignment.now.width ≡ rule.now.width }
    ensures { (r : Rule) → Represents rule.now r → Decides result (Fails r (λ k. slice_index assignment.now.any k) (λ k. slice_index assignment.now.con k)) }
{
    let mut values = [0; 102];
    fails_at_with_room(rule, assignment, &mut values)
}

// The same, with room for the values of the nodes, so that a caller who tries many assignments clears
// none of it. The nodes represent no rule before they have the roots of both sides.
pub fn fails_at_with_room(
    rule: &RuleNodes,
    assignment: &Assignment,
    values: &mut [u64; 102],
) -> bool
    requires { assignment.now.width ≡ rule.now.width }
    ensures { (r : Rule) → Represents rule.now r → Decides result (Fails r (λ k. slice_index assignment.now.any k) (λ k. slice_index assignment.now.con k)) }
{
    let [needed @ .., from, to] = rule.roots.as_slice() else {
        return false;
    };
    evaluate(rule, assignment, values);
    all_met(needed, values) && values[*from] != values[*to]
}
