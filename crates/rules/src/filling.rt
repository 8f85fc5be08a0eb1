// What filling a table answers.
ghost use Rattle.std.specs.Prelude.{◌≡◌};
ghost use Rattle.rules.specs.Answers.{fill_error_number, fill_number};

// Why a table is not filled with initial values.
#[derive(Clone, Copy, PartialEq, Eq)]
pub enum FillError {
    BadImage = 23,
    BadTable = 24,
}

impl FillError {
    // The number of the list.
    pub fn number(self) -> u32
        ensures { result ≡ fill_error_number self }
    {
        self as u32
    }
}

// The number that is given back of filling; 0 stands for a filled table.
pub fn fill_number(answer: Result<(), FillError>) -> u32
    ensures { result ≡ fill_number answer }
{
    match answer {
        Ok(()) => 0,
        Err(error) => error.number(),
    }
}
