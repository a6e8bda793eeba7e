// The model of the clauses, from the values that a solver found.
ghost use Rattle.std.specs.Prelude.{◌≡◌, ℕ, ◌+◌, ◌%◌, ◌==◌, ◌<◌, ◌≤◌, length, slice_index};
ghost use Rattle.clauses.specs.Flat.{Within};
ghost use Rattle.clauses.specs.Models.{Written};

use crate::literal::Literal;

// The sign of the literal with the code `value`, as a byte or a word.
fn sign<T: From<bool>>(value: u32) -> T
    ensures { T.from_gives (value % 2 == 0) result }
{
    T::from(value % 2 == 0)
}

// Writes the sign of each variable that occurs, as bytes or as words, and leaves the others. values has
// at an inside number the code of its variable's literal that is true.
pub fn write_model<T: From<bool> + Drop>(
    numbers: &[u32],
    map: &[u32],
    values: &[u32],
    model: &mut [T],
)
    requires within { Within numbers.now (length model.old + 1) }
    requires mapped { length model.old ≤ length map.now }
    requires valued { (v : ℕ) → slice_index map.now v < length values.now }
    ensures { Written T.from_gives numbers.now map.now values.now model.old model.new (length numbers.now) }
{
    for x in numbers {
        if *x >= 2 {
            let v = Literal(*x).variable().place();
            let value = values[map[v] as usize];
            model[v] = sign(value);
        }
    }
}
