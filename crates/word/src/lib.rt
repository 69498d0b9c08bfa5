// A 32-bit word of a program or of an answer: the kind in the top four bits, the payload in the low 28.
#![tactic(auto)]

mod kind;

ghost use Rattle.std.specs.Prelude.{◌≡◌, ◌%◌, Some};
ghost use Rattle.word.specs.Kind.{kind_number};
ghost use Rattle.word.specs.Word.{from_bytes, kind, payload, word, word_printed};

pub use crate::kind::Kind;
use std::fmt;

#[derive(Clone, Copy)]
pub struct Word {
    pub bits: u32,
}

impl Word {
    // The numbers of the kinds in document 01; it gives none the number 14.
    pub const VARIABLE: u32 = 0;

    pub const SYMBOL: u32 = 1;

    pub const NUMBER: u32 = 2;

    pub const EMPTY: u32 = 3;

    pub const PAIR: u32 = 4;

    pub const EQUAL: u32 = 5;

    pub const DIFFER: u32 = 6;

    pub const SYMBOLO: u32 = 7;

    pub const NUMBERO: u32 = 8;

    pub const ABSENTO: u32 = 9;

    pub const CONJUNCTION: u32 = 10;

    pub const DISJUNCTION: u32 = 11;

    pub const CALL: u32 = 12;

    pub const RELATION: u32 = 13;

    pub const ANSWER: u32 = 15;

    // The word as it is stored.
    pub fn from_bits(bits: u32) -> Word
        ensures { result.bits ≡ bits }
    {
        Word { bits }
    }

    // The word of four bytes of a file, the low byte first.
    pub fn from_bytes(low: u8, second: u8, third: u8, high: u8) -> Word
        ensures { result.bits ≡ from_bytes low second third high }
    {
        Word::from_bits(u32::from_le_bytes([low, second, third, high]))
    }

    // The word of a kind's number and a payload. Only the low 4 and 28 bits are taken, so that no input overflows.
    pub fn new(kind: u32, payload: u32) -> Word
        ensures { result.bits ≡ word (kind % 16) (payload % 268435456) }
    {
        Word {
            bits: kind % 16 * 268435456 + payload % 268435456,
        }
    }

    // The word of a kind and a payload, of which only the low 28 bits are taken.
    pub fn of_kind(kind: Kind, payload: u32) -> Word
        ensures { result.bits ≡ word (kind_number kind) (payload % 268435456) }
    {
        Word::new(kind.number(), payload)
    }

    pub fn kind(self) -> Kind
        ensures { kind_number result ≡ kind self.bits }
    {
        Kind::of_number(self.bits / 268435456)
    }

    pub fn payload(self) -> u32
        ensures { result ≡ payload self.bits }
    {
        self.bits % 268435456
    }
}

// As document 01 writes a word: its kind's number and its payload.
impl fmt::Display for Word {
    ghost output = { λ w. Some (word_printed w.bits) };

    fn fmt<W: fmt::Write>(&self, f: &mut fmt::Formatter<W>) -> fmt::Result {
        write!(f, "{}:{}", self.kind().number(), self.payload())
    }
}
