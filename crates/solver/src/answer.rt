// The public calls: read the clauses, search, and write the model.
//
// The variables are numbered inside by those that occur, so the arrays over variables are no longer
// than the clauses are: each variable that occurs brings 32 words at least, of which the arrays over
// variables take 12. What is left is for the clauses and their occurrence lists.
ghost use Rattle.std.specs.Prelude.{◌≡◌, ℕ, ◌+◌, ◌*◌, ◌^◌, ◌<◌, ◌≤◌, length, slice_index};
ghost use Rattle.std.specs.Int.{from_bool};
ghost use Rattle.clauses.specs.Says.{SolvedPost};
ghost use Rattle.solver.specs.Solving.{Solves};

use crate::solver::Solver;
use clauses::{Answer, Formula, Refusal, Solved, enough_room, number_variables, write_model};
use guidance::Fallbacks;
use kernel::{Trail, search_plain};
use learning::Search;

// Lists of fewer numbers than this are searched with learned clauses: their places fit 30 bits.
const MOST_NUMBERS: usize = 0x4000_0000;

// Searches for a model of the clauses with learned clauses, writes it, as bytes or as words, and counts
// fallbacks.
fn find_counted<T: From<bool> + Drop>(
    formula: &Formula,
    model: &mut [T],
    work: &mut [u32],
    fallbacks: &mut Fallbacks,
) -> Answer
    requires places { formula.now.variables ≤ length model.old }
    requires short { length formula.now.numbers.now < 2 ^ 30 }
    requires room { 32 * length formula.now.numbers.now + (8 * length model.old + 4096) ≤ length work.old }
    ensures { Solves T.from_gives formula.now.numbers.now model.old model.new result }
{
    let (map, rest) = work.split_at_mut(model.len());
    let (names, rest) = rest.split_at_mut(formula.numbers.len());
    let (renamed, rest) = rest.split_at_mut(formula.numbers.len());
    let variables = number_variables(formula, map, names, renamed);
    let inside = Formula {
        numbers: renamed,
        variables,
    };
    let mut solver = Solver::new(Search::new(&inside, rest));
    let answer = solver.run();
    *fallbacks = solver.search.guide.policy.fallbacks();
    match answer {
        Answer::Never => Answer::Never,
        Answer::Met => {
            write_model(formula.numbers, map, solver.search.trail.values(), model);
            Answer::Met
        }
    }
}

// Searches for a model of the clauses with learned clauses, and writes it, as bytes or as words. For
// callers that know that their clauses are few.
pub fn find_model<T: From<bool> + Drop>(
    formula: &Formula,
    model: &mut [T],
    work: &mut [u32],
) -> Answer
    requires places { formula.now.variables ≤ length model.old }
    requires short { length formula.now.numbers.now < 2 ^ 30 }
    requires room { 32 * length formula.now.numbers.now + (8 * length model.old + 4096) ≤ length work.old }
    ensures { Solves T.from_gives formula.now.numbers.now model.old model.new result }
{
    let mut fallbacks = Fallbacks::default();
    find_counted(formula, model, work, &mut fallbacks)
}

// Numbers each variable as it is: place v has v + 1, if that is a number.
fn number_in_order(map: &mut [u32])
    ensures same { (v : ℕ) → v < length map.new → v < 2 ^ 31 → slice_index map.new v ≡ v + 1 }
    ensures below { (v : ℕ) → v < length map.new → slice_index map.new v ≤ v + 1 }
{
    for (v, number) in map.iter_mut().enumerate() {
        *number = plain_number(v);
    }
}

// The number of variable v, from 1 on, if it has one.
fn plain_number(v: usize) -> u32
    ensures same { v < 2 ^ 31 → result ≡ v + 1 }
    ensures below { result ≤ v + 1 }
{
    if v < 0x8000_0000 { v as u32 + 1 } else { 0 }
}

// Searches for a model without learned clauses, and writes it: for lists that are too long for the
// arena's references.
fn solve_plain(formula: &Formula, model: &mut [u8], work: &mut [u32]) -> Answer
    requires places { formula.now.variables ≤ length model.old }
    requires room { 8 * length model.old + 4096 ≤ length work.old }
    ensures { Solves (λ b x. x ≡ from_bool b) formula.now.numbers.now model.old model.new result }
{
    let n = model.len() + 1;
    let (map, rest) = work.split_at_mut(model.len());
    let (values, rest) = rest.split_at_mut(n);
    let (literals, kinds) = rest.split_at_mut(n);
    number_in_order(map);
    let mut trail = Trail::new(formula.numbers, values, literals, kinds);
    match search_plain(&mut trail) {
        Answer::Never => Answer::Never,
        Answer::Met => {
            write_model(formula.numbers, map, trail.values(), model);
            Answer::Met
        }
    }
}

// Says whether some assignment meets all clauses, writes one, and counts fallbacks.
fn answer(clauses: &[u32], model: &mut [u8], work: &mut [u32], fallbacks: &mut Fallbacks) -> Solved
    ensures { SolvedPost clauses.now (length work.old) model.old model.new result }
{
    if !enough_room(clauses.len(), model.len(), work.len()) {
        return Err(Refusal::Small);
    }
    let formula = Formula::read(clauses, model.len())?;
    if clauses.len() < MOST_NUMBERS {
        Ok(find_counted(&formula, model, work, fallbacks))
    } else {
        Ok(solve_plain(&formula, model, work))
    }
}

// An answer, and how often the search had to do without its guidance.
#[derive(Clone, Copy)]
pub struct Counted {
    pub solved: Solved,
    pub fallbacks: Fallbacks,
}

// Says whether some assignment meets all clauses, writes one, and counts fallbacks.
pub fn solve_counted(clauses: &[u32], model: &mut [u8], work: &mut [u32]) -> Counted
    ensures { SolvedPost clauses.now (length work.old) model.old model.new result.solved }
{
    let mut fallbacks = Fallbacks::default();
    let solved = answer(clauses, model, work, &mut fallbacks);
    Counted { solved, fallbacks }
}

// Says whether some assignment meets all clauses, and writes one.
pub fn solve(clauses: &[u32], model: &mut [u8], work: &mut [u32]) -> Solved
    ensures { SolvedPost clauses.now (length work.old) model.old model.new result }
{
    solve_counted(clauses, model, work).solved
}
