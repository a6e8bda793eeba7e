// The names that stand in a rule.
ghost use Rattle.std.specs.Prelude.{◌≡◌, true, length};
ghost use Rattle.terms.specs.Items.{nodes_of};
ghost use Rattle.small_rules.specs.Marks.{Marked, named, mark_any, mark_con};

use terms::{Node, RuleNodes};

// Whether any i stands in a rule, and whether con i does.
#[derive(Clone, Copy, Default)]
pub(crate) struct Names {
    pub(crate) any: [bool; 16],
    pub(crate) con: [bool; 16],
}

impl Names {
    // These names and that of a node, if it has one.
    fn with(self, node: Node) -> Names
        requires { named node ≡ true }
        ensures any { result.any ≡ mark_any node self.any }
        ensures con { result.con ≡ mark_con node self.con }
    {
        let Names { mut any, mut con } = self;
        match node {
            Node::Any(k) => {
                any[k] = true;
                Names { any, con }
            }
            Node::Con(k) => {
                con[k] = true;
                Names { any, con }
            }
            Node::Lit(_) | Node::Unary(_, _) | Node::Binary(_, _, _) | Node::Ite(_, _, _) => self,
        }
    }

    // The names in the nodes of a rule.
    pub(crate) fn of(rule: &RuleNodes) -> Names
        ensures { Marked (nodes_of rule.now.nodes) (length (nodes_of rule.now.nodes)) result.any result.con }
    {
        let mut names = Names::default();
        for node in rule.nodes.as_slice() {
            names = names.with(*node);
        }
        names
    }
}
