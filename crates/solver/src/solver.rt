// The search: propagate, then learn from a conflict and go back, or decide.
//
// It ends: a step on makes the trail's number to the base 3 larger, and going back further than that
// costs one of a finite budget. Where nothing can be learned, or the budget is spent, the last
// decision is turned, which needs no memory at all.
ghost use Rattle.std.specs.Prelude.{◌≡◌, ◌-◌, ◌<◌, length, IfSome, MatchOption};
ghost use Rattle.kernel.specs.Scan.{Full};
ghost use Rattle.kernel.specs.Trail.{Clash, Free};
ghost use Rattle.kernel.specs.Scan.{Found};
ghost use Rattle.solver.specs.Steps.{Turned};

use crate::decide::pick;
use crate::reduce::reduce;
use crate::restart::withdraw;
use clauses::{Answer, Literal};
use guidance::Fallback;
use learning::{Conflict, Search};

// How often the search may go back further than the last decision.
const BUDGET: u64 = 0x1000_0000_0000;

// A search, and how often it may still go back further than the last decision.
#[derive(Drop)]
pub(crate) struct Solver<'a> {
    pub(crate) search: Search<'a>,
    budget: u64,
}

impl<'a> Solver<'a> {
    pub(crate) fn new(search: Search<'a>) -> Solver<'a>
        ensures { result.search ≡ search.entry }
    {
        Solver {
            search,
            budget: BUDGET,
        }
    }
}

// A literal that is free, wherever it comes from.
fn find_free(search: &mut Search) -> Option<Literal>
    ensures trail { search.new.trail ≡ search.old.trail }
    ensures free { MatchOption result (Full search.new.trail.clauses search.new.trail.values) (λ x. Free search.new.trail.values x.0) }
{
    if let Some(x) = pick(search) {
        return Some(x);
    }
    let x = search.trail.free_literal()?;
    search.guide.policy.note(Fallback::LostVariable);
    Some(x)
}

impl Solver<'_> {
    // Starts over with no decision, and forgets clauses where that is due.
    fn start_over(&mut self)
        requires { 0 < self.old.budget }
        ensures clauses { self.new.search.trail.clauses ≡ self.old.search.trail.clauses }
        ensures long { length self.new.search.trail.values ≡ length self.old.search.trail.values }
        ensures budget { self.new.budget ≡ self.old.budget - 1 }
    {
        let search = &mut self.search;
        withdraw(search);
        search.guide.policy.note_restart();
        if search.guide.policy.reduction_due() {
            reduce(search);
        }
        self.budget -= 1;
    }

    // Turns the last decision; where there is none, the clauses are never met.
    fn turn(&mut self) -> Option<Answer>
        requires { Clash self.old.search.trail.clauses self.old.search.trail.values }
        ensures { Turned self.old.search.trail self.old.budget self.new.search.trail self.new.budget result }
    {
        let search = &mut self.search;
        let keep = search.trail.last_decision().unwrap_or(0);
        search.guide.release(&search.trail, keep);
        search.guide.propagated = keep;
        if search.trail.flip() {
            None
        } else {
            Some(Answer::Never)
        }
    }

    // Goes on from a conflict; without one, where propagation has missed it.
    fn respond(&mut self, conflict: Option<Conflict>) -> Option<Answer>
        requires { Clash self.old.search.trail.clauses self.old.search.trail.values }
        ensures { Turned self.old.search.trail self.old.budget self.new.search.trail self.new.budget result }
    {
        let Some(conflict) = conflict else {
            return self.turn();
        };
        if self.budget == 0 {
            return self.turn();
        }
        let search = &mut self.search;
        if let Some(lesson) = search.learn(conflict) {
            search.jump(lesson);
            search.guide.order.decay();
            search.guide.policy.note_learned();
            self.budget -= 1;
            return None;
        }
        if search.guide.policy.forgetting_pays() {
            self.start_over();
            return None;
        }
        self.turn()
    }

    // All variables are set: looks at every given clause, whatever propagation may have missed.
    fn finish(&mut self) -> Option<Answer>
        requires { Full self.old.search.trail.clauses self.old.search.trail.values }
        ensures { Turned self.old.search.trail self.old.budget self.new.search.trail self.new.budget result }
    {
        let search = &mut self.search;
        if search.trail.clashes() {
            search.guide.policy.note(Fallback::MissedConflict);
            return self.respond(None);
        }
        Some(Answer::Met)
    }

    // Starts over where that is due, or sets a literal by decision, or finds that all are set.
    fn choose(&mut self) -> Option<Answer>
        ensures { Turned self.old.search.trail self.old.budget self.new.search.trail self.new.budget result }
    {
        let search = &mut self.search;
        if self.budget > 0 && search.guide.policy.restart_due() {
            self.start_over();
            return None;
        }
        let Some(x) = find_free(search) else {
            return self.finish();
        };
        let place = search.trail.len();
        search.guide.phases.note_place(x, place);
        search.guide.propagated = place;
        search.trail.decide(x);
        None
    }

    // One turn: follows what is forced, then learns or decides.
    fn advance(&mut self) -> Option<Answer>
        ensures { Turned self.old.search.trail self.old.budget self.new.search.trail self.new.budget result }
    {
        match self.search.propagate() {
            Ok(()) => self.choose(),
            Err(conflict) => self.respond(Some(conflict)),
        }
    }

    // Looks at every clause once with nothing set, and responds if one is false already.
    fn begin(&mut self) -> Option<Answer>
        ensures clauses { self.new.search.trail.clauses ≡ self.old.search.trail.clauses }
        ensures long { length self.new.search.trail.values ≡ length self.old.search.trail.values }
        ensures answer { IfSome result (Found self.new.search.trail) }
    {
        let search = &mut self.search;
        search.attach_all();
        search.insert_all();
        match search.settle() {
            Ok(()) => None,
            Err(conflict) => self.respond(Some(conflict)),
        }
    }

    // Whether some assignment meets the clauses: the values then are one.
    pub(crate) fn run(&mut self) -> Answer
        ensures clauses { self.new.search.trail.clauses ≡ self.old.search.trail.clauses }
        ensures long { length self.new.search.trail.values ≡ length self.old.search.trail.values }
        ensures answer { Found self.new.search.trail result }
    {
        if let Some(answer) = self.begin() {
            return answer;
        }
        'turns: loop {
            if let Some(answer) = self.advance() {
                return answer;
            }
        }
    }
}
