// The kinds of words.
ghost use Rattle.std.specs.Prelude.{◌≡◌, ◌%◌, ◌<◌};
ghost use Rattle.word.specs.Kind.{kind_number};

use crate::Word;

// The kinds, of which document 01 does not use the one of number 14.
#[derive(Clone, Copy, PartialEq, Eq, PartialOrd, Ord)]
pub enum Kind {
    Variable,
    Symbol,
    Number,
    Empty,
    Pair,
    Equal,
    Differ,
    Symbolo,
    Numbero,
    Absento,
    Conjunction,
    Disjunction,
    Call,
    Relation,
    Unused,
    Answer,
}

impl Kind {
    // The number in document 01's list.
    pub fn number(self) -> u32
        ensures { result ≡ kind_number self }
    {
        match self {
            Kind::Variable => Word::VARIABLE,
            Kind::Symbol => Word::SYMBOL,
            Kind::Number => Word::NUMBER,
            Kind::Empty => Word::EMPTY,
            Kind::Pair => Word::PAIR,
            Kind::Equal => Word::EQUAL,
            Kind::Differ => Word::DIFFER,
            Kind::Symbolo => Word::SYMBOLO,
            Kind::Numbero => Word::NUMBERO,
            Kind::Absento => Word::ABSENTO,
            Kind::Conjunction => Word::CONJUNCTION,
            Kind::Disjunction => Word::DISJUNCTION,
            Kind::Call => Word::CALL,
            Kind::Relation => Word::RELATION,
            Kind::Unused => 14,
            Kind::Answer => Word::ANSWER,
        }
    }

    // The kind of this number.
    pub(crate) fn of_number(number: u32) -> Kind
        requires { number < 16 }
        ensures { kind_number result ≡ number }
    {
        match number {
            Word::VARIABLE => Kind::Variable,
            Word::SYMBOL => Kind::Symbol,
            Word::NUMBER => Kind::Number,
            Word::EMPTY => Kind::Empty,
            Word::PAIR => Kind::Pair,
            Word::EQUAL => Kind::Equal,
            Word::DIFFER => Kind::Differ,
            Word::SYMBOLO => Kind::Symbolo,
            Word::NUMBERO => Kind::Numbero,
            Word::ABSENTO => Kind::Absento,
            Word::CONJUNCTION => Kind::Conjunction,
            Word::DISJUNCTION => Kind::Disjunction,
            Word::CALL => Kind::Call,
            Word::RELATION => Kind::Relation,
            14 => Kind::Unused,
            Word::ANSWER => Kind::Answer,
            _ => unreachable!(),
        }
    }
}
