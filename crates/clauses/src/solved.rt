// What comes of solving clauses.

// What is found of clauses.
#[derive(Clone, Copy, PartialEq, Eq, Debug)]
pub enum Answer {
    // Some assignment meets the clauses, and the model has it.
    Met,
    // No assignment meets them.
    Never,
}

// Why numbers are not solved.
#[derive(Clone, Copy, PartialEq, Eq, Debug)]
pub enum Refusal {
    // The numbers are no clauses.
    NoClauses,
    // The work is too small, or the model has no place for some variable.
    Small,
}

pub type Solved = Result<Answer, Refusal>;
