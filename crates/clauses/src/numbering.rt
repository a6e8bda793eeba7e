// Variables numbered inside by those that occur, so that a solver's arrays
// are as large as the variables that occur and not as the model is long. The memory is lent words, so
// a variable that has no number yet has 0.
ghost use Rattle.std.specs.Prelude.{◌≡◌, ◌+◌, ◌^◌, ◌<◌, ◌≤◌, length};
ghost use Rattle.clauses.specs.Numbering.{Inverse, Numbered, Renamed};

use crate::formula::Formula;
use crate::literal::Literal;

// Gives the variable v the next inside number if it has none, and returns how many are given.
fn number_variable(map: &mut [u32], names: &mut [u32], count: usize, v: usize) -> usize
    requires inverse { Inverse map.old names.old count }
    requires known { v < length map.old }
    requires narrow { v < 2 ^ 32 }
    requires room { count < length names.old }
    requires few { count < 2 ^ 30 }
    ensures inverse { Inverse map.new names.new result }
    ensures numbered { Numbered map.old map.new v }
    ensures more { result ≤ count + 1 }
{
    if map[v] != 0 {
        return count;
    }
    names[count] = v as u32;
    map[v] = count as u32 + 1;
    count + 1
}

// Renames the clauses by inside numbers: map takes outside variables to inside numbers, names takes them back.
pub fn number_variables(
    formula: &Formula,
    map: &mut [u32],
    names: &mut [u32],
    renamed: &mut [u32],
) -> usize
    requires within { formula.now.variables ≤ length map.old }
    requires room { length formula.now.numbers.now ≤ length names.old }
    requires long { length renamed.old ≡ length formula.now.numbers.now }
    requires short { length formula.now.numbers.now < 2 ^ 30 }
    ensures { Renamed formula.now.numbers.now renamed.new map.new names.new result }
{
    map.fill(0);
    let mut count = 0;
    // by places, since nothing is known of what is written through a zip with `iter_mut`
    for (k, x) in formula.numbers.iter().enumerate() {
        renamed[k] = if *x == 0 {
            0
        } else {
            let v = Literal(*x).variable().place();
            count = number_variable(map, names, count, v);
            2 * map[v] + *x % 2
        };
    }
    count
}
