// The published limits: as constants for whoever lends memory, and as values for whoever asks at run time.
ghost use Rattle.std.specs.Prelude.{◌≡◌};
ghost use Rattle.rules.specs.Answers.{published};

#[derive(Drop)]
pub struct Limits {
    pub text: usize,
    pub variables: usize,
    pub stack: usize,
    pub held_finals: usize,
    pub code: usize,
    pub image: usize,
    pub memory_numbers: usize,
    pub memory_bytes: usize,
    pub token_numbers: usize,
    pub tree_numbers: usize,
    pub unbounded: u32,
}

impl Limits {
    // A text has at most so many bytes.
    pub const TEXT: usize = 16384;
    // A text declares at most so many variables.
    pub const VARIABLES: usize = 64;
    // The machine's stack holds at most so many values.
    pub const STACK: usize = 32;
    // The machine holds so many final values of FORs.
    pub const HELD_FINALS: usize = 8;
    // Code has at most so many bytes.
    pub const CODE: usize = 8192;
    // No image is longer.
    pub const IMAGE: usize = 8530;
    // The length of working memory, in numbers of four bytes and in bytes.
    pub const MEMORY_NUMBERS: usize = 262144;

    pub const MEMORY_BYTES: usize = 1048576;
    // Of these, the tokens take the first, and the tree at most so many behind them.
    pub const TOKEN_NUMBERS: usize = 49155;

    pub const TREE_NUMBERS: usize = 98310;
    // The worst case of a text that has no bound.
    pub const UNBOUNDED: u32 = 4294967295;

    pub fn published() -> Self
        ensures { result ≡ published }
    {
        Self {
            text: Limits::TEXT,
            variables: Limits::VARIABLES,
            stack: Limits::STACK,
            held_finals: Limits::HELD_FINALS,
            code: Limits::CODE,
            image: Limits::IMAGE,
            memory_numbers: Limits::MEMORY_NUMBERS,
            memory_bytes: Limits::MEMORY_BYTES,
            token_numbers: Limits::TOKEN_NUMBERS,
            tree_numbers: Limits::TREE_NUMBERS,
            unbounded: Limits::UNBOUNDED,
        }
    }
}
