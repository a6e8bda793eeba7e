// Conflict analysis: which literals of the trail are to blame for a conflict.
//
// The marks begin with the variables of the clause that is false. From the trail's end on, a marked
// literal of the last level is resolved with its reason, until one is left: the first unique
// implication point. Each step is one of the kernel's, which keeps that the marked values are to
// blame; what is chosen here, and when it stops, is guidance.
ghost use Rattle.std.specs.Prelude.{◌≡◌, IfSome};
ghost use Rattle.kernel.specs.Resolve.{Blamed, Due};

use crate::search::Search;
use clauses::Literal;

impl Search<'_> {
    // The variables of the clause at c that are not marked yet take part in the conflict.
    fn bump(&mut self, c: usize)
        ensures trail { self.new.trail ≡ self.old.trail }
        ensures arena { self.new.arena ≡ self.old.arena }
        ensures marks { self.new.marks ≡ self.old.marks }
    {
        if self.arena.is_header(c) {
            self.guide.bump(self.arena.words_after(c), &self.marks);
        }
    }

    // Marks the variables of the clause at c, in the place of `resolved` if that is there. Gives how
    // many it marked that stand on the trail at place `from` or after it.
    pub(crate) fn absorb(
        &mut self,
        c: usize,
        resolved: Option<Literal>,
        from: usize,
    ) -> Option<usize>
        requires { IfSome resolved (λ x. Due self.old.trail.clauses self.old.trail.values self.old.marks x.0) }
        ensures trail { self.new.trail ≡ self.old.trail }
        ensures arena { self.new.arena ≡ self.old.arena }
        ensures blamed { IfSome result (λ _. Blamed self.new.trail.clauses self.new.trail.values self.new.marks) }
    {
        let literals = self.arena.clause(c)?;
        let places = self.guide.phases.places();
        self.marks
            .absorb(&self.trail, literals, resolved, places, from)
    }

    // Marks what is to blame for the clause at c being false, back to the first unique implication
    // point of the level that begins at place `level`, and gives the place of that.
    pub(crate) fn find_blame(&mut self, c: usize, level: usize) -> Option<usize>
        ensures trail { self.new.trail ≡ self.old.trail }
        ensures arena { self.new.arena ≡ self.old.arena }
        ensures blamed { IfSome result (λ _. Blamed self.new.trail.clauses self.new.trail.values self.new.marks) }
    {
        self.bump(c);
        let mut open = self.absorb(c, None, level)?;
        // the loop changes the search, so that no iterator can hold its trail
        for p in (level..self.trail.len()).rev() {
            let x = self.trail.literal(p);
            if self.marks.contains(x.variable()) {
                let Some(reason) = self.trail.reason(p) else {
                    return Some(p);
                };
                if open <= 1 {
                    return Some(p);
                }
                self.bump(reason);
                let more = self.absorb(reason, Some(x), level)?;
                open = (open - 1).saturating_add(more);
            }
        }
        Some(level)
    }
}
