// The calls of the rule book, as C functions.
#![tactic(auto)]

ghost use Rattle.std.specs.Prelude.{length, ◌≡◌};
ghost use Rattle.rulebook.specs.Codes.{Answered, code};

use clauses::{Answer, Refusal, Solved};

// An answer as a number, as callers in C read it.
fn code(solved: Solved) -> u32
    ensures { result ≡ code solved }
{
    match solved {
        Ok(Answer::Met) => 0,
        Ok(Answer::Never) => 1,
        Err(Refusal::NoClauses) => 2,
        Err(Refusal::Small) => 3,
    }
}

// Says whether some assignment meets all clauses, and writes one: 0 met, 1 never, 2 no clauses, 3 too
// little memory or a variable that has no model byte.
#[unsafe(no_mangle)]
pub extern "C" fn rulebook_solve(clauses: &[u32], model: &mut [u8], work: &mut [u32]) -> u32
    ensures { Answered clauses.now (length work.old) model.old model.new result }
{
    code(solver::solve(clauses, model, work))
}

// The same, and how often the solver had to do without its guidance: conflicts that
// propagation missed, analyses that led to no clause, and variables that the order had lost, as the
// first three counts, if there is room for them.
#[unsafe(no_mangle)]
pub extern "C" fn rulebook_solve_counted(
    clauses: &[u32],
    model: &mut [u8],
    work: &mut [u32],
    counts: &mut [u32],
) -> u32
    ensures { Answered clauses.now (length work.old) model.old model.new result }
{
    let counted = solver::solve_counted(clauses, model, work);
    if let [missed, failed, lost, ..] = counts {
        *missed = counted.fallbacks.missed_conflicts;
        *failed = counted.fallbacks.failed_analyses;
        *lost = counted.fallbacks.lost_variables;
    }
    code(counted.solved)
}
