// What a clause says under the values.
ghost use Rattle.std.specs.Prelude.{length};
ghost use Rattle.kernel.specs.Arena.{Clause};
ghost use Rattle.kernel.specs.Looks.{Looks};
ghost use Rattle.kernel.specs.Trail.{Own};

use clauses::Literal;

// Nothing as yet, its last literal that is not false, or that all are false.
#[derive(Clone, Copy, PartialEq, Eq, Debug)]
pub enum Look {
    Open,
    Unit(Literal),
    Conflict,
}

// Looks at a clause.
pub fn examine(clauses: &[u32], values: &[u32], literals: &[u32]) -> Look
    requires own { Own values.now }
    requires clause { Clause clauses.now literals.now (length values.now) 0 (length literals.now) }
    ensures { Looks clauses.now values.now result }
{
    let mut unit = None;
    for code in literals {
        let x = Literal(*code);
        let v = values[x.variable().index()];
        if v == x.0 {
            return Look::Open;
        }
        if v == 0 {
            match unit {
                None => unit = Some(x),
                Some(y) => {
                    if y != x {
                        return Look::Open;
                    }
                }
            }
        }
    }
    match unit {
        None => Look::Conflict,
        Some(x) => Look::Unit(x),
    }
}
