// The stack of an expression's operands: two numbers for each, its type and its height. It lies in lent memory behind the tree, since there is no heap.
ghost use Rattle.std.specs.Prelude.{[], ◌∷◌, ◌≡◌, ◌-◌, eqb, get_or};
ghost use Rattle.names.specs.Rows.{type_of};
ghost use Rattle.rules.specs.Answers.{type_as};
ghost use Rattle.rules.specs.KindNumbers.{kind_number};
ghost use Rattle.walk.specs.Places.{type_number};
ghost use Rattle.walk.specs.Moving.{Pushes};
ghost use Rattle.walk.specs.Operands.{raised, higher, needed};

use super::steps::Walk;
use rules::{Kind, Type};

impl Walk<'_> {
    // The number that lies so many before the top, 0 where there is none.
    pub fn before(&self, n: usize) -> u32
        ensures { result ≡ get_or self.now.memory.now (self.now.top - n) 0 }
    {
        self.memory
            .get(self.top.saturating_sub(n))
            .copied()
            .unwrap_or(0)
    }

    // An operand on the top.
    pub fn push(&mut self, kind: Type, height: u32)
        ensures { Pushes self.old (type_number kind ∷ height ∷ []) self.new }
    {
        if self.memory.len() < 2 {
            return;
        }
        let i = self.top;
        if i <= self.memory.len() - 2 {
            self.memory[i] = number_of(kind);
            self.memory[i + 1] = height;
            self.top = i + 2;
        }
    }
}

// Whether two types are one, as their kinds are.
pub(crate) fn same_type(a: Type, b: Type) -> bool
    ensures { result ≡ eqb (type_number a) (type_number b) }
{
    a == b
}

// The kind that stands for a type.
pub(crate) fn tag_of(kind: Type) -> Kind
    ensures { kind_number result ≡ type_number kind }
{
    match kind {
        Type::Bool => Kind::Bool,
        Type::Dint => Kind::Dint,
    }
}

// The number of that kind.
pub(crate) fn number_of(kind: Type) -> u32
    ensures { result ≡ type_number kind }
{
    tag_of(kind).number()
}

// The type that a number stands for.
#[tactic(auto, unfolding(names::specs::Rows::type_of))]
pub(crate) fn type_of(number: u32) -> Type
    ensures { type_as result ≡ type_of number }
{
    if number == Kind::Bool.number() {
        Type::Bool
    } else {
        Type::Dint
    }
}

// One more than a height; none is counted beyond 64, where 32 is the most.
#[tactic(auto, unfolding(crate::specs::Operands::raised, crate::specs::Operands::capped))]
fn raised(height: u32) -> u32
    ensures { result ≡ raised height }
{
    height.min(63) + 1
}

// The height of an operator's value: the larger of the left's and one more than the right's.
#[tactic(auto, unfolding(crate::specs::Operands::higher))]
pub(crate) fn higher(left: u32, right: u32) -> u32
    ensures { result ≡ higher left right }
{
    left.max(raised(right))
}

// The stack that an expression needs with so many more on it; at most 64 and these.
#[tactic(auto, unfolding(crate::specs::Operands::needed, crate::specs::Operands::capped))]
pub(crate) fn needed(height: u32, more: u8) -> u32
    ensures { result ≡ needed height more }
{
    height.min(64) + u32::from(more)
}
