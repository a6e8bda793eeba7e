// Shifts by a word: a barrel of stages, each of which moves the word by a power of two or leaves it.
ghost use Rattle.std.specs.Prelude.{◌≡◌, ◌≤◌, length};
ghost use Rattle.circuit.specs.Bits.{moved};
ghost use Rattle.circuit.specs.Circuits.{choose_net, shift_net};
ghost use Rattle.circuit.specs.Built.{Fits, Wrote};

use crate::builder::{Builder, LOW};
use clauses::Literal;

// Where a word is moved to.
#[derive(Clone, Copy, PartialEq, Eq, Debug)]
pub enum Direction {
    Left,
    Right,
}

// Writes x moved by so many places, with the incoming literal where no bit comes from.
fn write_moved(
    direction: Direction,
    incoming: Literal,
    places: usize,
    x: &[Literal],
    out: &mut [Literal],
)
    requires { length out.old ≡ length x.now }
    ensures { out.new ≡ moved direction incoming places x.now }
{
    let width = x.len();
    out.fill(incoming);
    if places < width {
        let kept = width - places;
        match direction {
            Direction::Left => out[places..].copy_from_slice(&x[..kept]),
            Direction::Right => out[..kept].copy_from_slice(&x[places..]),
        }
    }
}

impl Builder<'_> {
    // The word moved by so many places if s.
    fn stage(
        &mut self,
        direction: Direction,
        incoming: Literal,
        places: usize,
        s: Literal,
        word: &mut [Literal],
    )
        requires short { length word.old ≤ 64 }
        requires room { Fits self.old (choose_net s (moved direction incoming places word.old) word.old self.old.net).0 }
        ensures wrote { Wrote self.old self.new (choose_net s (moved direction incoming places word.old) word.old self.old.net).0 }
        ensures result { word.new ≡ (choose_net s (moved direction incoming places word.old) word.old self.old.net).1 }
    {
        let width = word.len();
        let mut before = [LOW; 64];
        let mut apart = [LOW; 64];
        before[..width].copy_from_slice(word);
        write_moved(direction, incoming, places, word, &mut apart[..width]);
        self.choose(s, &apart[..width], &before[..width], word);
    }

    // x moved to the left or to the right by count places, with the incoming literal where no bit comes
    // from. Once a stage would move everything out, one stage does for all the bits of the count that
    // are left.
    pub fn shift(
        &mut self,
        direction: Direction,
        incoming: Literal,
        x: &[Literal],
        count: &[Literal],
        out: &mut [Literal],
    )
        requires short { length x.now ≤ 64 }
        requires word { length out.old ≡ length x.now }
        requires room { Fits self.old (shift_net direction incoming (length x.now) 1 x.now count.now self.old.net).0 }
        ensures wrote { Wrote self.old self.new (shift_net direction incoming (length x.now) 1 x.now count.now self.old.net).0 }
        ensures result { out.new ≡ (shift_net direction incoming (length x.now) 1 x.now count.now self.old.net).1 }
    {
        out.copy_from_slice(x);
        let mut places = 1;
        for (i, bit) in count.iter().enumerate() {
            if places >= x.len() {
                let past = self.any(&count[i..]);
                self.stage(direction, incoming, places, past, out);
                return;
            }
            self.stage(direction, incoming, places, *bit, out);
            places += places;
        }
    }
}
