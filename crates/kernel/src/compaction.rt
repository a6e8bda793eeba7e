// Compaction: clauses are forgotten, and the others move down over the gap that they leave.
ghost use Rattle.std.specs.Prelude.{◌≡◌, ◌+◌, length, slice_index};
ghost use Rattle.kernel.specs.Arena.{Header, size};

use crate::arena::Arena;

impl Arena<'_> {
    // Moves the clause after the gap down to the gap's bottom; the gap then ends where the clause
    // ended. Its header is cleared first, since the gap has none.
    fn keep_next(&mut self)
        requires { Header self.old.words self.old.high }
        ensures low { self.new.low ≡ self.old.low + 1 + size self.old.words self.old.high }
        ensures high { self.new.high ≡ self.old.high + 1 + size self.old.words self.old.high }
        ensures header { slice_index self.new.words self.old.low ≡ slice_index self.old.words self.old.high }
        ensures clauses { self.new.clauses ≡ self.old.clauses }
        ensures variables { self.new.variables ≡ self.old.variables }
        ensures long { length self.new.words ≡ length self.old.words }
    {
        let c = self.high;
        let end = c + 1 + self.clause_length(c);
        let header = self.words[c];
        self.words[c] = 0;
        let to = self.low;
        self.words.copy_within(c + 1..end, to + 1);
        self.words[to] = header;
        self.low = to + (end - c);
        self.high = end;
    }

    // Drops the clause after the gap, which then ends where the clause ended.
    fn drop_next(&mut self)
        requires { Header self.old.words self.old.high }
        ensures low { self.new.low ≡ self.old.low }
        ensures high { self.new.high ≡ self.old.high + 1 + size self.old.words self.old.high }
        ensures cleared { slice_index self.new.words self.old.high ≡ 0 }
        ensures clauses { self.new.clauses ≡ self.old.clauses }
        ensures variables { self.new.variables ≡ self.old.variables }
        ensures long { length self.new.words ≡ length self.old.words }
    {
        let c = self.high;
        let end = c + 1 + self.clause_length(c);
        self.words[c] = 0;
        self.high = end;
    }

    // Keeps the clauses for which `keep` says so, of the place where a clause stands and the place to
    // which it would move, and drops the others.
    pub fn retain<F: FnMut(usize, usize) -> bool>(&mut self, mut keep: F)
        requires { F.IsAlwaysCallable keep }
        ensures high { self.new.high ≡ length self.new.words }
        ensures clauses { self.new.clauses ≡ self.old.clauses }
        ensures variables { self.new.variables ≡ self.old.variables }
        ensures long { length self.new.words ≡ length self.old.words }
    {
        self.low = 0;
        self.high = 0;
        // a clause is as long as its header says, so no range or iterator gives the places
        while self.high < self.words.len() {
            let c = self.high;
            if !self.is_header(c) {
                self.high = c + 1;
            } else if keep(c, self.low) {
                self.keep_next();
            } else {
                self.drop_next();
            }
        }
    }
}
