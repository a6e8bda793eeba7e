// The measures of a rule's terms: what the limits and the conditions of use speak of.
ghost use Rattle.std.specs.Prelude.{◌≡◌, ℕ, ◌<◌, true, length, slice_index_or};
ghost use Rattle.terms.specs.Items.{nodes_of};
ghost use Rattle.words.specs.Words.{bits};
ghost use Rattle.terms.specs.Terms.{Term, Rule, load2};
ghost use Rattle.terms.specs.Nodes.{Stands, sound};
ghost use Rattle.terms.specs.Represents.{Represents};
ghost use Rattle.terms.specs.Measures.{measure_of, measure_rule, node_measure, nothing, leaf, operation, together};

use super::{Node, RuleNodes};
use words::{BinaryOp, Width};

// The load of a term, its operations, and which names stand in it: bit i of `anys` is 1 exactly if
// any i does, and bit i of `cons` if con i does.
//
// Load and operations wrap, so that there is a measure of any term. Those of a rule within the
// limits are far too small for that.
#[derive(Clone, Copy, Default)]
pub(crate) struct Measure {
    pub(crate) load: u64,
    pub(crate) operations: u64,
    pub(crate) anys: u16,
    pub(crate) cons: u16,
}

// The measures of a rule: of its needed terms together, of its first side and of its second.
#[derive(Clone, Copy, Default)]
pub(crate) struct RuleMeasure {
    pub(crate) needs: Measure,
    pub(crate) from: Measure,
    pub(crate) to: Measure,
}

impl Measure {
    // Of a name or a literal, with the sets of its names.
    fn leaf(load: u64, anys: u16, cons: u16) -> Measure
        ensures { result ≡ leaf load anys cons }
    {
        Measure {
            load,
            anys,
            cons,
            ..Measure::default()
        }
    }

    // Of one operation, without its parts.
    fn operation(load: u64) -> Measure
        ensures { result ≡ operation load }
    {
        Measure {
            load,
            operations: 1,
            ..Measure::default()
        }
    }

    // Of two terms together.
    pub(crate) fn and(self, other: Measure) -> Measure
        ensures { result ≡ together self other }
    {
        Measure {
            load: self.load.wrapping_add(other.load),
            operations: self.operations.wrapping_add(other.operations),
            anys: self.anys | other.anys,
            cons: self.cons | other.cons,
        }
    }
}

// The load of an operation of two parts, without its parts.
fn binary_load(width: Width, op: BinaryOp) -> u64
    ensures { result ≡ load2 (bits width) op }
{
    let bits = u64::from(width.bits());
    match op {
        BinaryOp::Add | BinaryOp::Sub | BinaryOp::Ult | BinaryOp::Slt => 16 * bits,
        BinaryOp::Mul => 16 * (bits * bits),
        BinaryOp::Udiv | BinaryOp::Urem => 32 * (bits * bits),
        BinaryOp::And | BinaryOp::Or | BinaryOp::Xor => 4 * bits,
        BinaryOp::Shl | BinaryOp::Lshr | BinaryOp::Ashr => 64 * bits,
        BinaryOp::Comp => 8 * bits,
    }
}

// The measure of a node, from those of the nodes before it.
fn node_measure(width: Width, node: Node, before: &[Measure]) -> Measure
    requires { sound (bits width) (length before.now) node ≡ true }
    ensures { result ≡ node_measure (bits width) before.now node }
{
    let load = u64::from(width.bits());
    match node {
        Node::Any(k) => Measure::leaf(load, 1 << k, 0),
        Node::Con(k) => Measure::leaf(load, 0, 1 << k),
        Node::Lit(_) => Measure::leaf(load, 0, 0),
        Node::Unary(_, j) => Measure::operation(16 * load).and(before[j]),
        Node::Binary(op, j, k) => {
            let parts = before[j].and(before[k]);
            Measure::operation(binary_load(width, op)).and(parts)
        }
        Node::Ite(h, j, k) => {
            let parts = before[h].and(before[j].and(before[k]));
            Measure::operation(16 * load).and(parts)
        }
    }
}

// The measures of the terms of all nodes.
fn node_measures(rule: &RuleNodes) -> [Measure; 102]
    ensures { (i : ℕ) (e : Term) → i < length (nodes_of rule.now.nodes) → Stands (nodes_of rule.now.nodes) i e → slice_index_or result i nothing ≡ measure_of (bits rule.now.width) e }
{
    let mut all = [Measure::default(); 102];
    let nodes = rule.nodes.as_slice();
    for (i, node) in nodes.iter().enumerate() {
        all[i] = node_measure(rule.width, *node, &all[..i]);
    }
    all
}

impl RuleMeasure {
    // The measures of the rule that the nodes represent. They represent none before they have the
    // roots of both sides.
    pub(crate) fn of(rule: &RuleNodes) -> RuleMeasure
        ensures { (r : Rule) → Represents rule.now r → result ≡ measure_rule r }
    {
        let [needed @ .., from, to] = rule.roots.as_slice() else {
            return RuleMeasure::default();
        };
        let all = node_measures(rule);
        let mut needs = Measure::default();
        for root in needed {
            needs = needs.and(all[*root]);
        }
        RuleMeasure {
            needs,
            from: all[*from],
            to: all[*to],
        }
    }

    // The load of all its terms together.
    pub(crate) fn weight(self) -> u64
        ensures { result ≡ (together self.needs (together self.from self.to)).load }
    {
        self.needs.and(self.from.and(self.to)).load
    }
}
