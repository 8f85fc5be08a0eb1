// What running answers.
ghost use Rattle.std.specs.Prelude.{◌≡◌};
ghost use Rattle.rules.specs.Answers.{outcome_number};

// How a run ended.
#[derive(Clone, Copy, PartialEq, Eq)]
pub enum Outcome {
    Done = 0,
    Spent = 20,
    Range = 21,
    Divide = 22,
    BadImage = 23,
    BadTable = 24,
    BadCode = 25,
}

impl Outcome {
    // The number that is given back.
    pub fn number(self) -> u32
        ensures { result ≡ outcome_number self }
    {
        self as u32
    }
}

// What a run reports beside the table.
#[derive(Clone, Copy, PartialEq, Eq)]
pub struct Report {
    pub outcome: Outcome,
    pub ticks: u32,
    pub instructions: u64,
    pub offset: usize,
}

// What compiling a text and running it once answers: how the run ended, and the ticks it took.
#[derive(Clone, Copy, PartialEq, Eq)]
pub struct Evaluated {
    pub outcome: Outcome,
    pub ticks: u32,
}
