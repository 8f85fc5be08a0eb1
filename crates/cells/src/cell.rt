// A cell, and what its tag says.
ghost use Rattle.std.specs.Prelude.{◌≡◌, eqb};
ghost use Rattle.rules.specs.KindNumbers.{kind_number, Decodes};
ghost use Rattle.cells.specs.Reading.{is_item, is_label};

use rules::{Kind, UnknownKind};

// The tag is the number of a kind.
#[derive(Clone, Copy, PartialEq, Eq, Default)]
pub struct Cell {
    pub tag: u32,
    pub place: u32,
    pub datum: u32,
}

impl Cell {
    // The kind that the tag stands for.
    pub fn kind(self) -> Result<Kind, UnknownKind>
        ensures { Decodes self.tag result }
    {
        Kind::try_from(self.tag)
    }

    pub fn is(self, kind: Kind) -> bool
        ensures { result ≡ eqb self.tag (kind_number kind) }
    {
        self.tag == kind.number()
    }

    // Whether it is a cell of an expression, and not the one that closes it.
    pub fn is_item(self) -> bool
        ensures { result ≡ is_item self.tag }
    {
        is_item(self.tag)
    }

    // Whether it is a label of the core program, or closes labels.
    #[tactic(auto, unfolding(crate::specs::Reading::is_label))]
    pub fn is_label(self) -> bool
        ensures { result ≡ is_label self.tag }
    {
        self.is(Kind::Comma) || self.is(Kind::Colon)
    }
}

// Whether a cell with this tag is one of an expression, and not the one that closes it.
pub fn is_item(tag: u32) -> bool
    ensures { result ≡ is_item tag }
{
    match Kind::try_from(tag) {
        Ok(kind) => in_expression(kind),
        Err(_) => false,
    }
}

// Whether an expression has cells of this kind, but for the one that closes it.
fn in_expression(kind: Kind) -> bool
    ensures { result ≡ is_item (kind_number kind) }
{
    matches!(
        kind,
        Kind::Name | Kind::Int | Kind::True | Kind::False | Kind::Open | Kind::Unary | Kind::Binary
    )
}
