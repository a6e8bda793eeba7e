// Learning: the clause of the negations of all that is to blame, stored in the arena.
ghost use Rattle.std.specs.Prelude.{◌≡◌, ℕ, ◌≤◌, ◌<◌, length, IfSome, slice_index, take};
ghost use Rattle.kernel.specs.Arena.{Header};
ghost use Rattle.kernel.specs.Resolve.{Blamed};

use crate::propagation::Conflict;
use crate::search::Search;
use guidance::Fallback;

// The most literals of a clause that is learned.
const MOST_LITERALS: usize = 0x7fff_ffff;

// Where a learned clause stands, and how many literals of the trail to keep, so that all but one of
// the clause's literals stay false.
#[derive(Clone, Copy, PartialEq, Eq, Debug)]
pub struct Lesson {
    pub clause: usize,
    pub keep: usize,
}

// The literals of a clause to learn: how many, on how many levels, and the place after the second of
// them from the trail's end.
#[derive(Clone, Copy, Default)]
struct Collected {
    count: usize,
    levels: u32,
    second: Option<usize>,
}

impl Search<'_> {
    // Writes the negations of the marked literals, the last on the trail first, into lent memory.
    fn collect(&mut self) -> Collected
        ensures count { result.count ≤ length self.new.literals.now }
        ensures trail { self.new.trail ≡ self.old.trail }
        ensures arena { self.new.arena ≡ self.old.arena }
        ensures marks { self.new.marks ≡ self.old.marks }
    {
        let mut found = Collected::default();
        let mut fresh = true;
        // by places, since a literal and its reason are read behind the trail's face
        for p in (0..self.trail.len()).rev() {
            if found.count >= self.marks.len() || found.count >= self.literals.len() {
                break;
            }
            let x = self.trail.literal(p);
            if self.marks.contains(x.variable()) {
                self.literals[found.count] = x.negated().0;
                found.count += 1;
                if found.count == 2 {
                    found.second = Some(p + 1);
                }
                if fresh {
                    found.levels = found.levels.saturating_add(1);
                    fresh = false;
                }
            }
            if self.trail.reason(p).is_none() {
                fresh = true;
            }
        }
        found
    }

    // The place of the first decision from place k on, or the trail's end.
    fn next_decision(&self, k: usize) -> usize
        ensures { result ≤ length self.now.trail.kinds }
    {
        let end = self.trail.len();
        (k..end)
            .find(|p| self.trail.reason(*p).is_none())
            .unwrap_or(end)
    }

    // Marks what is to blame for the clause at c being false, made small; the last level begins at
    // place `level`. None where that led nowhere.
    fn analyze(&mut self, c: usize, level: usize) -> Option<()>
        ensures trail { self.new.trail ≡ self.old.trail }
        ensures arena { self.new.arena ≡ self.old.arena }
        ensures blamed { IfSome result (λ _. Blamed self.new.trail.clauses self.new.trail.values self.new.marks) }
    {
        let first = self.trail.first_decision();
        let place = self.find_blame(c, level)?;
        let kept = self.minimize(place, first)?;
        self.drop_zero_marks(first, kept);
        Some(())
    }

    // Derives a clause from a conflict and stores it; none if that led nowhere or there is no room.
    fn derive(&mut self, conflict: Conflict) -> Option<Lesson>
        ensures trail { self.new.trail ≡ self.old.trail }
        ensures place { IfSome result (λ l. l.clause ≡ self.old.arena.low) }
        ensures header { IfSome result (λ l. Header self.new.arena.words l.clause) }
        ensures long { length self.new.arena.words ≡ length self.old.arena.words }
        ensures keep { IfSome result (λ l. l.keep ≤ length self.new.trail.kinds) }
    {
        let level = self.trail.last_decision()?;
        if self.analyze(conflict.0, level).is_none() {
            self.guide.policy.note(Fallback::FailedAnalysis);
            return None;
        }
        let found = self.collect();
        let keep = self.next_decision(found.second.unwrap_or(0));
        let literals = &self.literals[..found.count];
        if !self.marks.cover(&self.trail, literals) {
            self.guide.policy.note(Fallback::FailedAnalysis);
            return None;
        }
        if found.count >= MOST_LITERALS || self.arena.room() <= found.count {
            self.guide.policy.note_full();
            return None;
        }
        let clause = self.arena.store(literals);
        self.guide.lists.attach(clause, literals);
        self.guide.lists.set_score(clause, found.levels);
        Some(Lesson { clause, keep })
    }

    // Learns a clause from a conflict; none if nothing was learned. No mark is left.
    pub fn learn(&mut self, conflict: Conflict) -> Option<Lesson>
        ensures trail { self.new.trail ≡ self.old.trail }
        ensures place { IfSome result (λ l. l.clause ≡ self.old.arena.low) }
        ensures header { IfSome result (λ l. Header self.new.arena.words l.clause) }
        ensures long { length self.new.arena.words ≡ length self.old.arena.words }
        ensures keep { IfSome result (λ l. l.keep ≤ length self.new.trail.kinds) }
        ensures clean { (k : ℕ) → k < length self.new.marks → slice_index self.new.marks k ≡ 0 }
    {
        let lesson = self.derive(conflict);
        self.marks.clear();
        lesson
    }

    // Frees all literals of the trail but the first ones.
    pub fn go_back(&mut self, keep: usize)
        requires { keep ≤ length self.old.trail.kinds }
        ensures literals { self.new.trail.literals ≡ take keep self.old.trail.literals }
        ensures kinds { self.new.trail.kinds ≡ take keep self.old.trail.kinds }
        ensures clauses { self.new.trail.clauses ≡ self.old.trail.clauses }
        ensures long { length self.new.trail.values ≡ length self.old.trail.values }
        ensures arena { self.new.arena ≡ self.old.arena }
        ensures marks { self.new.marks ≡ self.old.marks }
    {
        self.guide.release(&self.trail, keep);
        self.guide.propagated = keep;
        self.trail.retreat(keep);
    }

    // Goes back to the first literals that a lesson keeps, and sets what its clause then forces.
    pub fn jump(&mut self, lesson: Lesson)
        requires { lesson.keep ≤ length self.old.trail.kinds }
        ensures clauses { self.new.trail.clauses ≡ self.old.trail.clauses }
        ensures long { length self.new.trail.values ≡ length self.old.trail.values }
        ensures arena { self.new.arena ≡ self.old.arena }
        ensures marks { self.new.marks ≡ self.old.marks }
    {
        self.go_back(lesson.keep);
        let _ = self.visit(lesson.clause);
    }
}
