// The kinds of tokens. The tags of the tree are these kinds, and three more.
ghost use Rattle.std.specs.Prelude.{◌≡◌};
ghost use Rattle.rules.specs.KindNumbers.{kind_number, Decodes};

#[derive(Clone, Copy, PartialEq, Eq)]
pub enum Kind {
    // The end of the text, and what closes a list.
    Finish,
    Name,
    Int,
    And,
    Bool,
    By,
    Case,
    Dint,
    Do,
    Else,
    Elsif,
    EndCase,
    EndFor,
    EndIf,
    EndProgram,
    EndRepeat,
    EndVar,
    EndWhile,
    Exit,
    False,
    For,
    If,
    Mod,
    Not,
    Of,
    Or,
    Program,
    Repeat,
    Then,
    To,
    True,
    Until,
    Var,
    While,
    Xor,
    Assign,
    Dots,
    LessEq,
    MoreEq,
    UnEq,
    Colon,
    Semi,
    Comma,
    Open,
    Close,
    Plus,
    Minus,
    Star,
    Slash,
    Less,
    More,
    Equal,
    Amp,
    Unary,
    Binary,
    Whole,
}

impl Kind {
    // The number that stands for the kind in lent memory.
    pub fn number(self) -> u32
        ensures { result ≡ kind_number self }
    {
        self as u32
    }
}

// A number that stands for no kind.
#[derive(Clone, Copy, PartialEq, Eq)]
pub struct UnknownKind(pub u32);

impl TryFrom<u32> for Kind {
    type Error = UnknownKind;

    ghost try_from_gives = { Decodes };

    fn try_from(number: u32) -> Result<Self, UnknownKind> {
        match number {
            0 => Ok(Kind::Finish),
            1 => Ok(Kind::Name),
            2 => Ok(Kind::Int),
            3 => Ok(Kind::And),
            4 => Ok(Kind::Bool),
            5 => Ok(Kind::By),
            6 => Ok(Kind::Case),
            7 => Ok(Kind::Dint),
            8 => Ok(Kind::Do),
            9 => Ok(Kind::Else),
            10 => Ok(Kind::Elsif),
            11 => Ok(Kind::EndCase),
            12 => Ok(Kind::EndFor),
            13 => Ok(Kind::EndIf),
            14 => Ok(Kind::EndProgram),
            15 => Ok(Kind::EndRepeat),
            16 => Ok(Kind::EndVar),
            17 => Ok(Kind::EndWhile),
            18 => Ok(Kind::Exit),
            19 => Ok(Kind::False),
            20 => Ok(Kind::For),
            21 => Ok(Kind::If),
            22 => Ok(Kind::Mod),
            23 => Ok(Kind::Not),
            24 => Ok(Kind::Of),
            25 => Ok(Kind::Or),
            26 => Ok(Kind::Program),
            27 => Ok(Kind::Repeat),
            28 => Ok(Kind::Then),
            29 => Ok(Kind::To),
            30 => Ok(Kind::True),
            31 => Ok(Kind::Until),
            32 => Ok(Kind::Var),
            33 => Ok(Kind::While),
            34 => Ok(Kind::Xor),
            35 => Ok(Kind::Assign),
            36 => Ok(Kind::Dots),
            37 => Ok(Kind::LessEq),
            38 => Ok(Kind::MoreEq),
            39 => Ok(Kind::UnEq),
            40 => Ok(Kind::Colon),
            41 => Ok(Kind::Semi),
            42 => Ok(Kind::Comma),
            43 => Ok(Kind::Open),
            44 => Ok(Kind::Close),
            45 => Ok(Kind::Plus),
            46 => Ok(Kind::Minus),
            47 => Ok(Kind::Star),
            48 => Ok(Kind::Slash),
            49 => Ok(Kind::Less),
            50 => Ok(Kind::More),
            51 => Ok(Kind::Equal),
            52 => Ok(Kind::Amp),
            53 => Ok(Kind::Unary),
            54 => Ok(Kind::Binary),
            55 => Ok(Kind::Whole),
            _ => Err(UnknownKind(number)),
        }
    }
}

// The types of variables.
#[derive(Clone, Copy, PartialEq, Eq)]
pub enum Type {
    Bool,
    Dint,
}
