// Constants: their values as unsigned numbers, and the rules for labels and BY.
ghost use Rattle.std.specs.Prelude.{◌≡◌, ◌&&◌, eqb, MatchOption, Ok};
ghost use Rattle.std.specs.Int.Signed.{le_z};
ghost use Rattle.rules.specs.Bytes.{to_u, of_u};
ghost use Rattle.rules.specs.Walk.{largest, con_value};
ghost use Rattle.rules.specs.Kinds.{DINT};
ghost use Rattle.rules.specs.Syntax.{con_int};
ghost use Rattle.rules.specs.Cells.{truth_kind};
ghost use Rattle.walk.specs.Constants.{NoTruth, is_constant};
ghost use Rattle.walk.specs.Places.{at, after, type_number, literal};
ghost use Rattle.walk.specs.Moving.{Keeps, Goes};
ghost use Rattle.walk.specs.Steps.{Moves};
ghost use Rattle.walk.specs.LabelPromises.{HighIs, LabelMeans};
ghost use Rattle.walk.specs.Promises.{ConstantMeans, LabelsMean, ByMeans};

use super::operands::same_type;
use super::steps::{Walk, kind_of, need};
use rules::{Fault, Kind, Refusal, Type};

#[derive(Clone, Copy)]
pub(crate) struct Literal {
    // Its first byte, its type, and its value.
    pub first: u32,
    pub kind: Type,
    pub bits: u32,
}

// The largest integer in a constant: 2147483648 only after `-`.
#[tactic(auto, unfolding(rules::specs::Walk::largest))]
fn largest(below: bool) -> u32
    ensures { result ≡ largest below }
{
    if below { 2147483648 } else { 2147483647 }
}

// An integer's value.
#[tactic(auto, unfolding(rules::specs::Walk::con_value))]
fn bits_of(below: bool, value: u32) -> u32
    ensures { result ≡ to_u (con_value (con_int 0 below 0 value)) }
{
    if below { value.wrapping_neg() } else { value }
}

// Whether a value is at most another.
fn in_order(low: u32, high: u32) -> bool
    ensures { result ≡ le_z (of_u low) (of_u high) }
{
    low.cast_signed() <= high.cast_signed()
}

// Whether both are integers.
fn integers(low: Literal, high: Literal) -> bool
    ensures { result ≡ (eqb (type_number low.kind) DINT && eqb (type_number high.kind) DINT) }
{
    same_type(low.kind, Type::Dint) && same_type(high.kind, Type::Dint)
}

// The value of TRUE or FALSE.
fn truth_of(tag: u32) -> Option<bool>
    ensures { MatchOption result (NoTruth tag) (λ truth. tag ≡ truth_kind truth) }
{
    match kind_of(tag) {
        Kind::True => Some(true),
        Kind::False => Some(false),
        _ => None,
    }
}

// Whether a constant starts here.
pub(crate) fn is_constant(tag: u32) -> bool
    ensures { result ≡ is_constant tag }
{
    matches!(
        kind_of(tag),
        Kind::True | Kind::False | Kind::Plus | Kind::Minus
    )
}

impl Walk<'_> {
    // TRUE or FALSE, or an integer with its sign: 4.
    pub fn constant(&mut self) -> Result<Literal, Refusal>
        ensures keeps { Keeps self.old self.new }
        ensures walks { Moves 3 self.old.memory.now self.old.memory.now (at self.old) (literal result self.new).step × ConstantMeans self.old.memory.now (at self.old) (literal result self.new) }
        ensures numbers { self.new.memory.now ≡ self.old.memory.now }
    {
        let sign = self.next();
        if let Some(truth) = truth_of(sign.tag) {
            return Ok(Literal {
                first: sign.place,
                kind: Type::Bool,
                bits: u32::from(truth),
            });
        }
        let below = sign.is(Kind::Minus);
        let integer = self.next();
        need(
            integer.datum <= largest(below),
            Fault::BadInteger,
            integer.place,
        )?;
        Ok(Literal {
            first: sign.place,
            kind: Type::Dint,
            bits: bits_of(below, integer.datum),
        })
    }

    // Behind a label's low value: `..` and the high one, or the same value.
    fn high_of(&mut self, low: Literal) -> Result<Literal, Refusal>
        ensures keeps { Keeps self.old self.new }
        ensures numbers { self.new.memory.now ≡ self.old.memory.now }
        ensures high { HighIs self.old.memory.now (literal (Ok low) self.old) (literal result self.new) }
    {
        if !self.is_at(Kind::Dots) {
            return Ok(low);
        }
        self.skip();
        self.constant()
    }

    // A label: 4 of low, 4 of high, 8, 16.
    fn label(&mut self) -> Result<(), Refusal>
        ensures keeps { Keeps self.old self.new }
        ensures walks { Goes 3 self.old self.new (after result self.new) LabelMeans }
    {
        let low = self.constant()?;
        let high = self.high_of(low)?;
        need(integers(low, high), Fault::WrongType, low.first)?;
        need(in_order(low.bits, high.bits), Fault::LabelOrder, low.first)?;
        self.write(Kind::Comma, low.bits, high.bits);
        Ok(())
    }

    // The labels of a group, and the cell that closes them.
    pub fn labels(&mut self) -> Result<(), Refusal>
        ensures keeps { Keeps self.old self.new }
        ensures walks { Goes 3 self.old self.new (after result self.new) LabelsMean }
    {
        while is_constant(self.ahead().tag) {
            self.label()?;
        }
        self.head(Kind::Colon);
        Ok(())
    }

    // BY: 4, 8, 15; missing: 1.
    pub fn by(&mut self) -> Result<(), Refusal>
        ensures keeps { Keeps self.old self.new }
        ensures walks { Goes 3 self.old self.new (after result self.new) ByMeans }
    {
        if self.is_at(Kind::Finish) {
            self.skip();
            self.write(Kind::By, 0, 1);
            return Ok(());
        }
        let step = self.constant()?;
        need(
            same_type(step.kind, Type::Dint),
            Fault::WrongType,
            step.first,
        )?;
        need(step.bits != 0, Fault::StepZero, step.first)?;
        self.write(Kind::By, 0, step.bits);
        Ok(())
    }
}
