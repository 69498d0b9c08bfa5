// Rule files in the written form: is this list of words a program, and if not, why and where? And may it be run with these settings?
#![tactic(auto)]

mod calls;
mod part;
mod reading;
mod settings;

ghost use Rattle.std.specs.Prelude.{◌≡◌};
ghost use Rattle.rules.specs.Accept.{read};
ghost use Rattle.rules.specs.Verdict.{number_of, said, meaning};

pub use crate::settings::{SCRATCH_WORDS, settings_good};

// The longest program, in words.
const MOST_WORDS: usize = 16384;

// The conditions 1 to 8 by which document 01 turns a program away, with the numbers of its table.
#[derive(Clone, Copy, PartialEq, Eq)]
pub enum Condition {
    WordCount = 1,
    WrongKind = 2,
    WrongExtent = 3,
    VariableCount = 4,
    UnknownVariable = 5,
    RelationCount = 6,
    UnknownRelation = 7,
    ArgumentCount = 8,
}

impl Condition {
    // The number in document 01's table.
    pub fn number(self) -> u32
        ensures { result ≡ number_of self }
    {
        self as u32
    }

    // The refusal by this condition at a place.
    pub(crate) fn at(self, place: usize) -> Refusal
        ensures { result ≡ record { condition = self; place = place } }
    {
        Refusal {
            condition: self,
            place,
        }
    }
}

// Why a program is refused: the condition that it fails, and the place.
#[derive(Clone, Copy, PartialEq, Eq)]
pub struct Refusal {
    pub condition: Condition,
    pub place: usize,
}

// Reads the whole program: its structure first, then its calls.
pub fn check(program: &[u32]) -> Result<(), Refusal>
    ensures { meaning result ≡ said (read program.now) }
{
    if program.is_empty() || MOST_WORDS < program.len() {
        return Err(Condition::WordCount.at(0));
    }
    match reading::read_relations(program) {
        Err(refusal) => Err(refusal),
        Ok(_) => calls::check_calls(program),
    }
}
