// What compiling answers.
ghost use Rattle.std.specs.Prelude.{◌≡◌};
ghost use Rattle.rules.specs.Answers.{fault_number};

// Why a text is refused. The numbers of the list are those of the variants.
#[derive(Clone, Copy, PartialEq, Eq)]
pub enum Fault {
    // The text has more bytes than a text may have.
    LongText = 1,
    // No token stands here, or a comment is never closed.
    NoToken = 2,
    // A name is malformed or too long.
    BadName = 3,
    // An integer is malformed or too large.
    BadInteger = 4,
    // The token continues no program.
    Unexpected = 5,
    // The name is declared already.
    Redeclared = 6,
    // The name is not declared.
    Unknown = 7,
    // An expression, a constant or a variable has another type than is wanted.
    WrongType = 8,
    // There is one variable too many.
    ManyVariables = 9,
    // Parentheses, statements or operands are nested too deep.
    TooDeep = 10,
    // A FOR around has this variable.
    LoopVariable = 11,
    // No loop is around this EXIT.
    ExitOutside = 12,
    // The code has more bytes than code may have.
    LongCode = 13,
    // The image does not fit in the buffer.
    ShortBuffer = 14,
    // BY is 0.
    StepZero = 15,
    // A label's low value is above its high one.
    LabelOrder = 16,
    // Working memory is shorter than the published length.
    ShortMemory = 17,
}

impl Fault {
    // The number of the list.
    pub fn number(self) -> u32
        ensures { result ≡ fault_number self }
    {
        self as u32
    }
}

// Why a text is refused, and the place in the text.
#[derive(Clone, Copy, PartialEq, Eq)]
pub struct Refusal {
    pub fault: Fault,
    pub place: usize,
}

// What is stated of the code of a text that the walk accepts.
#[derive(Clone, Copy, PartialEq, Eq)]
pub struct Stated {
    pub depth: u32,
    // Limits::UNBOUNDED is the mark.
    pub worst: u32,
}

// What compiling answers of an accepted text: the bytes of the image and of its code, the depth, and the worst case (Limits::UNBOUNDED is the mark).
#[derive(Clone, Copy, PartialEq, Eq)]
pub struct Compiled {
    pub image: usize,
    pub code: usize,
    pub depth: u32,
    pub worst: u32,
}
