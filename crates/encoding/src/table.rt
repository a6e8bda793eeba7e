// The table of a rule's words: each entry once.
ghost use Rattle.std.specs.Prelude.{◌≡◌, ◌+◌, ◌<◌, ◌≤◌, [], length, position, slice_index_or};
ghost use Rattle.encoding.specs.declared.entry.Entry.TheVariants.{Any};
ghost use Rattle.encoding.specs.Table.{same, place};

use crate::entry::Entry;
use std::marker::Model;

// A rule's terms have at most 32 operations. An operation makes two entries at most, a division and one
// of its words, and has at most three parts; so of a term of n operations there are at most 4 n + 1
// entries, and of the six terms at most 4 * 32 + 6.
pub const MOST_ENTRIES: usize = 134;

#[derive(Clone, Copy)]
pub struct Table {
    entries: [Entry; MOST_ENTRIES],
    len: usize,
}

// A place that holds no entry yet holds the blank, so that a table can be copied.
impl Model for Table {
    ghost use Rattle.std.specs.Prelude.{◌-◌, List, ◌++◌, length, take, replicate};
    ghost use Rattle.encoding.specs.declared.entry.Entry.{Entry as EntryValue};
    ghost use Rattle.encoding.specs.declared.entry.Entry.TheVariants.{Any};
    ghost use Rattle.encoding.specs.Lists.{Filled, counted, refilled};

    ghost Value = { List EntryValue };

    ghost view = { λ t. take t.len t.entries };

    ghost invariant = { λ t. Filled 134 (Any 0) t.len t.entries };

    ghost inverse = { λ items. record { entries = items ++ replicate (134 - length items) (Any 0); len = length items } };

    ghost inverse_ok = { λ t filled i. record {
      entries = refilled 134 (Any 0) t.len t.entries filled i;
      len = counted 134 (Any 0) t.len t.entries filled i;
    } };
}

impl Table {
    // No entries yet.
    pub fn new() -> Table
        ensures { result ≡ [] }
    {
        Table {
            entries: [Entry::Any(0); MOST_ENTRIES],
            len: 0,
        }
    }

    // The entries, in the order in which they were made.
    pub fn entries(&self) -> &[Entry]
        ensures value { result.now ≡ self.now }
        ensures fits { length result.now ≤ 134 }
    {
        &self.entries[..self.len]
    }

    // The entry at place k, if there is one.
    pub(crate) fn entry(&self, k: usize) -> Entry
        ensures { result ≡ slice_index_or self.now k (Any 0) }
    {
        self.entries().get(k).copied().unwrap_or(Entry::Any(0))
    }

    // The place of an entry, if it is there.
    fn find(&self, entry: Entry) -> Option<usize>
        ensures { result ≡ position (λ x. same x entry) self.now }
    {
        self.entries().iter().position(|other| *other == entry)
    }

    // The place of an entry, which is added if it isn't there.
    pub fn place(&mut self, entry: Entry) -> usize
        requires { length self.old < 134 }
        ensures table { self.new ≡ (place entry self.old).0 }
        ensures place { result ≡ (place entry self.old).1 }
        ensures kept { length self.old ≤ length self.new }
        ensures more { length self.new ≤ length self.old + 1 }
        ensures inside { result < length self.new }
    {
        match self.find(entry) {
            Some(i) => i,
            None => {
                let end = self.len;
                self.entries[end] = entry;
                self.len += 1;
                end
            }
        }
    }
}
