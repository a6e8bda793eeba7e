// Making what is to blame smaller: marked literals that follow from the other marked ones are
// resolved away, and literals that every model makes true lose their marks.
ghost use Rattle.std.specs.Prelude.{◌≡◌, IfSome};
ghost use Rattle.kernel.specs.Resolve.{Blamed};
ghost use Rattle.kernel.specs.Trail.{NoDecision};

use crate::guide::is_literal;
use crate::search::Search;
use clauses::Literal;

impl Search<'_> {
    // Whether the clause at c has only marked literals besides x, or ones before the first decision.
    fn is_redundant(&self, c: usize, x: Literal, first: usize) -> bool {
        if !self.arena.is_header(c) {
            return false;
        }
        let words = self.arena.words_after(c);
        words
            .iter()
            .take_while(|word| is_literal(**word))
            .all(|code| {
                let y = Literal(*code);
                let v = y.variable();
                y == x || self.marks.contains(v) || self.guide.phases.stands_before(v, first)
            })
    }

    // Resolves the marked literals from before place `top` downwards to the first decision with their
    // reasons, where that marks no other after the first decision. Gives how many are left there.
    pub(crate) fn minimize(&mut self, top: usize, first: usize) -> Option<usize>
        requires { Blamed self.old.trail.clauses self.old.trail.values self.old.marks }
        ensures trail { self.new.trail ≡ self.old.trail }
        ensures arena { self.new.arena ≡ self.old.arena }
        ensures blamed { IfSome result (λ _. Blamed self.new.trail.clauses self.new.trail.values self.new.marks) }
    {
        let end = self.trail.len();
        let mut kept: usize = 1;
        // the loop changes the search, so that no iterator can hold its trail
        for p in (first..top.min(end)).rev() {
            if kept >= self.marks.len() {
                break;
            }
            let x = self.trail.literal(p);
            if self.marks.contains(x.variable()) {
                match self.trail.reason(p) {
                    Some(reason) if self.is_redundant(reason, x, first) => {
                        let _marked = self.absorb(reason, Some(x), end)?;
                    }
                    _ => kept = kept.saturating_add(1),
                }
            }
        }
        Some(kept)
    }

    // Takes away the marks of literals before the first decision, until `kept` marks are left.
    pub(crate) fn drop_zero_marks(&mut self, first: usize, kept: usize)
        requires first { NoDecision self.old.trail.kinds first }
        requires blamed { Blamed self.old.trail.clauses self.old.trail.values self.old.marks }
        ensures trail { self.new.trail ≡ self.old.trail }
        ensures arena { self.new.arena ≡ self.old.arena }
        ensures blamed { Blamed self.new.trail.clauses self.new.trail.values self.new.marks }
    {
        // the kernel takes the place, by which it knows that the literal is true in every model
        for p in (0..first).rev() {
            if self.marks.len() <= kept {
                break;
            }
            self.marks.drop_level_zero(&self.trail, first, p);
        }
    }
}
