// Terms by reference: a position in the program and, 16,384 times, the base of its environment. Nothing is copied.
ghost use Rattle.std.specs.Prelude.{◌≡◌, ◌+◌, ◌<◌, length};
ghost use Rattle.word.specs.Kind.{kind_number};
ghost use Rattle.rules.specs.Syntax.{Term};
ghost use Rattle.semantics.specs.Substitution.{Substitution};
ghost use Rattle.engine.specs.Reference.{base_of, pos_of, Stands};
ghost use Rattle.engine.specs.Walk.{PartRead, Follows, WalkedTo, Resolves, Shaped};

use crate::layout::POSITIONS;
use word::{Kind, Word};

// The part at a reference: its first word.
#[derive(Clone, Copy)]
pub struct Part {
    pub bits: u32,
    pub kind: Kind,
    pub payload: u32,
}

pub(crate) fn part_at(program: &[u32], reference: u32) -> Part
    requires { pos_of reference < length program.now }
    ensures { PartRead program.now reference result.bits (kind_number result.kind) result.payload }
{
    let bits = program[(reference % POSITIONS) as usize];
    let word = Word::from_bits(bits);
    Part {
        bits,
        kind: word.kind(),
        payload: word.payload(),
    }
}

// The path's variable that a variable's word stands for, by the environment of its reference.
pub(crate) fn variable_at(reference: u32, payload: u32) -> u32
    requires { base_of reference + payload < 4294967296 }
    ensures { result ≡ base_of reference + payload }
{
    reference / POSITIONS + payload
}

// The position past the part at a reference: its own word, and as many after it as its size.
pub(crate) fn part_end(reference: u32, size: u32) -> u32
    requires { pos_of reference + 1 + size < 4294967296 }
    ensures { result ≡ pos_of reference + 1 + size }
{
    reference % POSITIONS + 1 + size
}

// A term that was followed: its reference, and the word there, so that it is read once. `through` is the last bound variable on the way, where it led through one.
#[derive(Clone, Copy)]
pub struct Walked {
    pub at: u32,
    pub bits: u32,
    pub kind: Kind,
    pub payload: u32,
    pub through: Option<u32>,
}

// The term, followed through the bindings: up to an atom, a pair or an open variable. The position is held in sixteen bits (document 02, Note 4), apart from its base: the last of a program is 16,383.
pub(crate) fn walk(program: &[u32], scratch: &[u32], term: u32) -> Walked
    requires { (bs : Substitution) × (t : Term) × Follows program.now scratch.now bs term t }
    ensures { WalkedTo program.now scratch.now term result }
{
    let mut position = (term % POSITIONS) as u16;
    let mut base = term / POSITIONS;
    let mut through = None;
    loop {
        let part = part_at(program, position as u32);
        let here = Walked {
            at: position as u32 + POSITIONS * base,
            bits: part.bits,
            kind: part.kind,
            payload: part.payload,
            through,
        };
        if part.kind != Kind::Variable {
            return here;
        }
        let variable = base + part.payload;
        let entry = scratch[variable as usize];
        if entry == 0 {
            return here;
        }
        through = Some(variable);
        position = ((entry - 1) % POSITIONS) as u16;
        base = (entry - 1) / POSITIONS;
    }
}

// Past the term at a reference: from second part to second part, then past the last.
pub(crate) fn skip(program: &[u32], term: u32) -> u32
    requires { (t : Term) × Stands program.now term t }
    ensures { (t : Term) (h : Stands program.now term t) → result + pos_of term ≡ term + h.to }
{
    let mut at = term;
    loop {
        let part = part_at(program, at);
        if part.kind != Kind::Pair {
            return at + 1;
        }
        at = at + 1 + part.payload;
    }
}

#[derive(Clone, Copy)]
pub enum Shape {
    // An open variable.
    Open(u32),
    // An atom's word.
    Atom(u32),
    // References to the parts of a pair.
    Pair(u32, u32),
}

pub(crate) fn follow(program: &[u32], scratch: &[u32], term: u32) -> Shape
    requires { (t : Term) × Resolves program.now scratch.now term t }
    ensures { (t : Term) → Resolves program.now scratch.now term t → Shaped program.now scratch.now result t }
{
    let node = walk(program, scratch, term);
    match node.kind {
        Kind::Variable => Shape::Open(variable_at(node.at, node.payload)),
        Kind::Pair => Shape::Pair(node.at + 1, node.at + 1 + node.payload),
        _ => Shape::Atom(node.bits),
    }
}
