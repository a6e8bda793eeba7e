// Tests of a few functions, some of which nothing else in this repository calls: what they give is held to values
// from outside.
#![tactic(auto)]

#[cfg(test)]
mod tests {
    use circuit::{HIGH, LOW, inverted};
    use clauses::Literal;
    use encoding::Entry;
    use terms::{Node, RootList, RuleNodes};
    use words::{UnaryOp, Width};

    // A literal is 2v + 2 for variable v, and 2v + 3 for its negation.
    #[test]
    fn each_literal_of_a_word_is_negated(rt: HostRuntime) {
        let word = inverted(&[HIGH, LOW, Literal(10), Literal(13)]);
        for (i, code) in [3, 2, 11, 12].iter().enumerate() {
            assert_eq!(rt; word[i].0, *code, "at {i}");
        }
    }

    // By the trait's bound, as a list that is filled before it has items would ask for it.
    fn default_of<T: Default>() -> T {
        T::default()
    }

    #[test]
    fn a_default_is_the_name_any_0(rt: HostRuntime) {
        assert!(rt; matches!(default_of::<Node>(), Node::Any(0)));
        assert_eq!(rt; default_of::<Entry>(), Entry::Any(0));
    }

    // The rule that the negation of any 3 is con 1, at 8 bits.
    #[test]
    fn a_rule_is_made_node_by_node(rt: HostRuntime) {
        let mut rule = RuleNodes::new(Width::W8);
        assert_eq!(rt; rule.push(Node::Any(3)), 0);
        assert_eq!(rt; rule.push(Node::Unary(UnaryOp::Neg, 0)), 1);
        assert_eq!(rt; rule.push(Node::Con(1)), 2);
        let mut roots = RootList::new();
        roots.push(1);
        roots.push(2);
        rule.set_roots(roots);
        assert!(rt; matches!(rule.node(1), Node::Unary(UnaryOp::Neg, 0)));
        assert_eq!(rt; rule.nodes.as_slice().len(), 3);
        assert_eq!(rt; rule.roots.as_slice(), [1, 2].as_slice());
    }
}
