// The texts that are read, each with a name.
use std::alloc::{AllocError, Global};

// A text that is a front, then a word so many times, then a back.
#[derive(Clone, Copy)]
pub(crate) struct Repeated {
    pub(crate) name: &'static str,
    pub(crate) front: &'static [u8],
    pub(crate) word: &'static [u8],
    pub(crate) times: usize,
    pub(crate) back: &'static [u8],
}

impl Repeated {
    pub(crate) fn text(&self, heap: Global) -> Result<Vec<u8>, AllocError> {
        let mut text = Vec::new(heap);
        text.extend_from_slice(self.front)?;
        for _ in 0..self.times {
            text.extend_from_slice(self.word)?;
        }
        text.extend_from_slice(self.back)?;
        Ok(text)
    }
}

pub(crate) const TEXTS: [(&str, &[u8]); 40] = [
    // Characters, and words that mean nothing.
    ("empty", b""),
    ("blanks only", b" \n  \n"),
    ("a rule", b"rule 8 0 any 0 any 0"),
    ("many blanks", b"\n rule\n8  0 any 0\n\nany 0 \n"),
    ("tab", b"rule\t8 0 any 0 any 0"),
    ("carriage return", b"rule 8 0 any 0 any 0\r\n"),
    ("NUL", b"rule 8 0 any 0 any \0"),
    ("byte 255", b"rule 8 0 any 0 \xff 0"),
    ("upper case", b"rule 8 0 bvAdd any 0 any 1 any 0"),
    ("unknown operation", b"rule 8 0 bvnand any 0 any 1 any 0"),
    // Numbers.
    ("lit 0", b"rule 8 0 lit 0 any 0"),
    ("lit 00", b"rule 8 0 lit 00 any 0"),
    ("lit 07", b"rule 8 0 any 0 lit 07"),
    ("lit +7", b"rule 8 0 any 0 lit +7"),
    ("lit 255 at 8", b"rule 8 0 lit 255 any 0"),
    ("lit 256 at 8", b"rule 8 0 lit 256 any 0"),
    ("lit 65535 at 16", b"rule 16 0 lit 65535 any 0"),
    ("lit 65536 at 16", b"rule 16 0 lit 65536 any 0"),
    ("lit 4294967296 at 32", b"rule 32 0 lit 4294967296 any 0"),
    (
        "lit 2^64 - 1 at 64",
        b"rule 64 0 lit 18446744073709551615 any 0",
    ),
    (
        "lit 2^64 at 64",
        b"rule 64 0 lit 18446744073709551616 any 0",
    ),
    (
        "lit 2^64 + 1 at 8",
        b"rule 8 0 lit 18446744073709551617 any 0",
    ),
    (
        "lit 10 * 2^64 at 8",
        b"rule 8 0 lit 184467440737095516160 any 0",
    ),
    ("any 15", b"rule 8 0 any 15 con 15"),
    ("any 16", b"rule 8 0 any 16 any 0"),
    ("con 16", b"rule 8 0 any 0 con 16"),
    // Heads of rules, and texts that stop too early.
    ("width 24", b"rule 24 0 any 0 any 0"),
    ("width 08", b"rule 08 0 any 0 any 0"),
    ("width 2^32 + 8", b"rule 4294967304 0 any 0 any 0"),
    ("4 needed", b"rule 8 4 con 0 con 1 con 2 con 3 any 0 any 0"),
    (
        "5 needed",
        b"rule 8 5 con 0 con 1 con 2 con 3 con 4 any 0 any 0",
    ),
    ("no rule", b"8 0 any 0 any 0"),
    ("cut after rule", b"rule"),
    ("cut after the width", b"rule 8 "),
    ("cut after the count", b"rule 8 0\n"),
    ("cut in a name", b"rule 8 0 any 0 any"),
    ("cut after a side", b"rule 8 0 any 0"),
    ("cut in a term", b"rule 8 0 any 0 bvadd any 0"),
    ("one word more", b"rule 8 0 any 0 any 0\nany"),
    (
        "second rule bad",
        b"rule 8 0 any 0 any 0\nrule 8 0 any 0\n  bvadd any 0 lit x",
    ),
];

// Texts at the limits of how many operations a rule has, and how many rules a book has.
pub(crate) const LIMITS: [Repeated; 8] = [
    Repeated {
        name: "32 operations",
        front: b"rule 8 0 ",
        word: b"bvnot ",
        times: 32,
        back: b"any 0 any 0",
    },
    Repeated {
        name: "33 operations",
        front: b"rule 8 0 ",
        word: b"bvnot ",
        times: 33,
        back: b"any 0 any 0",
    },
    Repeated {
        name: "30 and 2",
        front: b"rule 8 0 ",
        word: b"bvnot ",
        times: 30,
        back: b"any 0 bvneg bvneg any 0",
    },
    Repeated {
        name: "30 and 3",
        front: b"rule 8 0 ",
        word: b"bvnot ",
        times: 30,
        back: b"any 0 bvneg bvneg bvneg any 0",
    },
    Repeated {
        name: "32 ites",
        front: b"rule 8 0 ",
        word: b"ite any 0 any 1 ",
        times: 32,
        back: b"any 2 any 0",
    },
    Repeated {
        name: "256 rules",
        front: b"",
        word: b"rule 8 0 any 0 any 0\n",
        times: 256,
        back: b" ",
    },
    Repeated {
        name: "257 rules",
        front: b"",
        word: b"rule 8 0 any 0 any 0\n",
        times: 257,
        back: b" ",
    },
    Repeated {
        name: "10,000 nested",
        front: b"rule 8 0 ",
        word: b"bvadd ",
        times: 10_000,
        back: b"any 0",
    },
];
