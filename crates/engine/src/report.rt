// What a run returns: how it ended, and its counts.
ghost use Rattle.std.specs.Prelude.{◌≡◌};
ghost use Rattle.semantics.specs.Steps.{bound_number};
ghost use Rattle.engine.specs.Report.{bound_of, refusal_number, refusal_place};
ghost use Rattle.engine.specs.declared.report.Refusal.TheVariants.{Program};

// Which of the five bounds on one path was met, in the order of document 01.
#[derive(Clone, Copy)]
pub enum Bound {
    Variables,
    Goals,
    Disjunctions,
    Constraints,
    Waiting,
}

impl Bound {
    // Its number in document 01's list.
    pub fn number(self) -> u32
        ensures { result ≡ bound_number (bound_of self) }
    {
        match self {
            Bound::Variables => 1,
            Bound::Goals => 2,
            Bound::Disjunctions => 3,
            Bound::Constraints => 4,
            Bound::Waiting => 5,
        }
    }
}

// How a run ended.
#[derive(Clone, Copy)]
pub enum End {
    Finished,
    Rounds,
    Steps,
    Output,
    Path(Bound),
}

// Why a call is refused: its settings, which are looked at first, or its program.
#[derive(Clone, Copy)]
pub enum Refusal {
    Settings,
    Program(rules::Refusal),
}

impl Refusal {
    // The number in document 01's table of conditions.
    pub fn number(self) -> u32
        ensures { result ≡ refusal_number self }
    {
        match self {
            Refusal::Settings => 9,
            Refusal::Program(refusal) => refusal.condition.number(),
        }
    }

    // The place that the table gives with it; the settings have none, and it is 0.
    pub fn place(self) -> usize
        ensures { result ≡ refusal_place self }
    {
        match self {
            Refusal::Settings => 0,
            Refusal::Program(refusal) => refusal.place,
        }
    }
}

impl From<rules::Refusal> for Refusal {
    ghost from_gives = { λ cause refusal. refusal ≡ Program cause };

    fn from(cause: rules::Refusal) -> Refusal {
        Refusal::Program(cause)
    }
}

#[derive(Clone, Copy)]
pub struct Report {
    pub end: End,
    pub round: u32,
    pub steps: u32,
    pub answers: u32,
    pub words: u32,
    // The branches cut in the last completed round, 0 if none was completed.
    pub cut: u32,
}
