// Expressions: names, types and heights, in one pass over the postfix.
ghost use Rattle.std.specs.Prelude.{◌&&◌, [], ◌∷◌, ◌≡◌, ◌-◌, eqb, Ok};
ghost use Rattle.rules.specs.Cells.{cell, WHOLE};
ghost use Rattle.rules.specs.KindNumbers.{kind_number};
ghost use Rattle.walk.specs.Places.{at, standing, after, inside, type_number, value};
ghost use Rattle.walk.specs.Moving.{Keeps, Goes};
ghost use Rattle.walk.specs.Steps.{Moves, extended, written};
ghost use Rattle.walk.specs.Operands.{needed};
ghost use Rattle.walk.specs.Items.{taken_kind, given_kind, sign_kind};
ghost use Rattle.walk.specs.Promises.{ExpressionMeans, ValuedMeans, HeldMeans};
ghost use Rattle.walk.specs.Stacking.{Stacks, VariableMeans, SignMeans, OperationMeans, PartMeans, sign_place, placed_at};

use super::operands::{higher, needed, number_of, same_type, type_of};
use super::scope::Scope;
use super::steps::{STACK, Walk, kind_of, need};
use cells::Cell;
use rules::{Fault, Kind, Refusal, Type};

// An expression: its first byte, its type, and its height.
#[derive(Clone, Copy)]
pub(crate) struct Value {
    pub first: u32,
    pub kind: Type,
    pub height: u32,
}

// What an operator takes, if its left operand has this type: both by their numbers. The codes of operators stay the numbers that the image has for them; the rules speak of them so too.
fn taken_kind(code: u32, left: u32) -> u32
    ensures { result ≡ taken_kind code left }
{
    match code {
        16 | 17 => left,
        18 | 19 | 20 => Kind::Bool.number(),
        _ => Kind::Dint.number(),
    }
}

// What an operator gives.
fn given_kind(code: u32) -> Type
    ensures { type_number result ≡ given_kind code }
{
    match code {
        7 | 8 | 9 | 10 | 11 => Type::Dint,
        _ => Type::Bool,
    }
}

// What a sign takes and gives.
#[tactic(auto, unfolding(crate::specs::Items::sign_kind))]
fn sign_kind(code: u32) -> Type
    ensures { type_number result ≡ sign_kind code }
{
    if code == 6 { Type::Bool } else { Type::Dint }
}

// The place that is written with a sign; unary plus needs none.
#[tactic(auto, unfolding(crate::specs::Stacking::sign_place))]
fn sign_place(code: u32, place: u32) -> u32
    ensures { result ≡ sign_place code place }
{
    if code == 0 { 0 } else { place }
}

// Whether two operands have the type that is wanted.
fn fit(left: u32, right: u32, wanted: u32) -> bool
    ensures { result ≡ (eqb left wanted && eqb right wanted) }
{
    left == wanted && right == wanted
}

impl Walk<'_> {
    // An operand is written and stacked.
    fn operand(&mut self, kind: Kind, datum: u32, of: Type)
        ensures keeps { Keeps self.old self.new }
        ensures stacks { Stacks self.old.memory.now self.new.memory.now (at self.old) self.old.top (cell (kind_number kind) 0 datum) (type_number of ∷ 1 ∷ []) (standing self.new) }
    {
        self.write(kind, 0, datum);
        self.push(of, 1);
    }

    // A variable: 7.
    fn variable(&mut self, scope: &Scope, name: Cell) -> Result<(), Refusal>
        ensures keeps { Keeps self.old self.new }
        ensures walks { Moves 0 self.old.memory.now self.new.memory.now (at self.old) (after result self.new) × VariableMeans scope.now.text.now scope.now.names name (at self.old) self.old.memory.now self.new.memory.now self.old.top (inside result self.new) }
    {
        let slot = self.slot_of(scope, name)?;
        self.operand(Kind::Name, slot, self.type_of(slot));
        Ok(())
    }

    // `-`, `+` or NOT: 8. It takes what it gives.
    fn sign(&mut self, cell: Cell) -> Result<(), Refusal>
        ensures keeps { Keeps self.old self.new }
        ensures walks { Moves 0 self.old.memory.now self.new.memory.now (at self.old) (after result self.new) × SignMeans cell (at self.old) self.old.memory.now self.new.memory.now self.old.top (inside result self.new) }
    {
        let code = cell.datum;
        let fits = self.before(2) == number_of(sign_kind(code));
        need(fits, Fault::WrongType, cell.place)?;
        self.write(Kind::Unary, sign_place(code, cell.place), code);
        Ok(())
    }

    // An operator between two operands: 8. Its value takes their place.
    fn operation(&mut self, cell: Cell) -> Result<(), Refusal>
        ensures keeps { Keeps self.old self.new }
        ensures walks { Moves 0 self.old.memory.now self.new.memory.now (at self.old) (after result self.new) × OperationMeans cell (at self.old) self.old.memory.now self.new.memory.now self.old.top (inside result self.new) }
    {
        let code = cell.datum;
        let left = self.before(4);
        let fits = fit(left, self.before(2), taken_kind(code, left));
        need(fits, Fault::WrongType, cell.place)?;
        let height = higher(self.before(3), self.before(1));
        self.write(Kind::Binary, cell.place, code);
        self.top = self.top.saturating_sub(4);
        self.push(given_kind(code), height);
        Ok(())
    }

    // One cell of an expression.
    fn part(&mut self, scope: &Scope) -> Result<(), Refusal>
        ensures keeps { Keeps self.old self.new }
        ensures walks { Moves 3 self.old.memory.now self.new.memory.now (at self.old) (after result self.new) × PartMeans scope.now.text.now scope.now.names self.old.memory.now self.new.memory.now (at self.old) self.old.top (inside result self.new) }
    {
        let cell = self.next();
        match kind_of(cell.tag) {
            Kind::Name => return self.variable(scope, cell),
            Kind::Int => {
                need(cell.datum <= 2147483647, Fault::BadInteger, cell.place)?;
                self.operand(Kind::Int, cell.datum, Type::Dint);
            }
            Kind::True => self.operand(Kind::True, 1, Type::Bool),
            Kind::False => self.operand(Kind::False, 0, Type::Bool),
            Kind::Open => self.write(Kind::Open, 0, 0),
            Kind::Unary => return self.sign(cell),
            _ => return self.operation(cell),
        }
        Ok(())
    }

    // An expression that a statement holds, without the cell that closes it: 4 and 7 at an operand, 8 at an operator.
    fn expression(&mut self, scope: &Scope) -> Result<Value, Refusal>
        ensures keeps { Keeps self.old self.new }
        ensures walks { Moves 3 self.old.memory.now self.new.memory.now (at self.old) (value result self.new).step × ExpressionMeans scope.now.text.now scope.now.names self.old.memory.now self.new.memory.now (at self.old) (value result self.new) }
    {
        self.top = STACK;
        while self.ahead().is_item() {
            self.part(scope)?;
        }
        let end = self.next();
        Ok(Value {
            first: end.place,
            kind: type_of(self.before(2)),
            height: self.before(1),
        })
    }

    // Its type is the one that is wanted, or 8 at this place; its height is at most 32 with so many more on it, or 10.
    fn placed(&mut self, v: Value, wanted: Type, place: u32, more: u8) -> Result<(), Refusal>
        ensures keeps { Keeps self.old self.new }
        ensures placed { (after result self.new ≡ extended self.old.memory.now (placed_at (value (Ok v) self.old) (type_number wanted) place more)) × (self.new.memory.now ≡ written self.old.memory.now (placed_at (value (Ok v) self.old) (type_number wanted) place more) (cell WHOLE 0 (needed v.height more))) }
    {
        let height = needed(v.height, more);
        need(same_type(v.kind, wanted), Fault::WrongType, place)?;
        need(height <= 32, Fault::TooDeep, v.first)?;
        self.write(Kind::Whole, 0, height);
        Ok(())
    }

    // An expression of a wanted type; its type is faulted at a given place.
    pub fn valued(&mut self, scope: &Scope, wanted: Type, place: u32) -> Result<(), Refusal>
        ensures keeps { Keeps self.old self.new }
        ensures walks { Goes 3 self.old self.new (after result self.new) (ValuedMeans scope.now.text.now scope.now.names (type_number wanted) place) }
    {
        let v = self.expression(scope)?;
        self.placed(v, wanted, place, 0)
    }

    // An expression of a wanted type; its type is faulted at its first byte.
    pub fn held(&mut self, scope: &Scope, wanted: Type, more: u8) -> Result<(), Refusal>
        ensures keeps { Keeps self.old self.new }
        ensures walks { Goes 3 self.old self.new (after result self.new) (HeldMeans scope.now.text.now scope.now.names (type_number wanted) more) }
    {
        let v = self.expression(scope)?;
        self.placed(v, wanted, v.first, more)
    }
}
