// Values for the names of a rule.
ghost use Rattle.std.specs.Prelude.{slice_index};
ghost use Rattle.words.specs.Words.{bits};
ghost use Rattle.terms.specs.Terms.{Within};

use words::Width;

// A word of the width for each name any and for each name con.
#[derive(Clone, Copy)]
pub struct Assignment {
    pub width: Width,
    pub any: [u64; 16],
    pub con: [u64; 16],
    ghost any_words: { Within (bits width) (λ k. slice_index any k) },
    ghost con_words: { Within (bits width) (λ k. slice_index con k) },
}
