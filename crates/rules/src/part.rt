// A part: its first word.
ghost use Rattle.std.specs.Prelude.{◌<◌, length};
ghost use Rattle.word.specs.Kind.{kind_number};
ghost use Rattle.rules.specs.Inner.{PartAt};

use word::{Kind, Word};

// A part's kind, and the payload as a count of words.
#[derive(Clone, Copy)]
pub struct Part {
    pub kind: Kind,
    pub size: usize,
}

pub(crate) fn part_at(program: &[u32], at: usize) -> Part
    requires { at < length program.now }
    ensures { PartAt program.now at (kind_number result.kind) result.size }
{
    let word = Word::from_bits(program[at]);
    Part {
        kind: word.kind(),
        size: word.payload() as usize,
    }
}
