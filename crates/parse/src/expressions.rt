// Expressions, by one function for all levels. They are written in postfix.
ghost use Rattle.std.specs.Prelude.{◌≡◌, suc, ◌<◌, ◌≤◌, length, OnOk};
ghost use Rattle.rules.specs.Cells.{exp_cells, whole_cells};
ghost use Rattle.rules.specs.KindNumbers.{kind_number};
ghost use Rattle.rules.specs.Syntax.{operand, signed_operand, expr};
ghost use Rattle.parse.specs.Steps.{Fits, Stays, Moves};
ghost use Rattle.parse.specs.Reading.{ReadsWith};
ghost use Rattle.parse.specs.Parts.{right, right_cells, in_parens};
ghost use Rattle.parse.specs.Operators.{Operates, Signs, Binds, Signed, OperatorAhead};

use super::parser::Parser;
use rules::{Fault, Kind, Refusal};

// How many parentheses may be nested.
const DEEPEST: u32 = 16;

// How tightly an operator binds, 7 the tightest, and its code.
#[derive(Clone, Copy)]
struct Operator {
    level: u32,
    code: u32,
}

#[tactic(auto, unfolding(rules::specs::Syntax::operators, rules::specs::Syntax::operator_of, rules::specs::Syntax::operator, rules::specs::Codes::bin_code))]
fn operator_of(kind: Kind) -> Option<Operator>
    ensures { Operates (kind_number kind) result }
{
    match kind {
        Kind::Star => Some(Operator { level: 7, code: 7 }),
        Kind::Slash => Some(Operator { level: 7, code: 8 }),
        Kind::Mod => Some(Operator { level: 7, code: 9 }),
        Kind::Plus => Some(Operator { level: 6, code: 10 }),
        Kind::Minus => Some(Operator { level: 6, code: 11 }),
        Kind::Less => Some(Operator { level: 5, code: 12 }),
        Kind::More => Some(Operator { level: 5, code: 13 }),
        Kind::LessEq => Some(Operator { level: 5, code: 14 }),
        Kind::MoreEq => Some(Operator { level: 5, code: 15 }),
        Kind::Equal => Some(Operator { level: 4, code: 16 }),
        Kind::UnEq => Some(Operator { level: 4, code: 17 }),
        Kind::And | Kind::Amp => Some(Operator { level: 3, code: 18 }),
        Kind::Xor => Some(Operator { level: 2, code: 19 }),
        Kind::Or => Some(Operator { level: 1, code: 20 }),
        _ => None,
    }
}

// The code of an operator before an operand.
#[tactic(auto, unfolding(crate::specs::Parts::prefix_code, rules::specs::Cells::sign_code))]
fn sign_of(kind: Kind) -> Option<u32>
    ensures { Signs (kind_number kind) result }
{
    match kind {
        Kind::Minus => Some(5),
        Kind::Plus => Some(0),
        Kind::Not => Some(6),
        _ => None,
    }
}

impl Parser<'_> {
    // The operator that is next, if it binds as tightly as this level or tighter.
    fn operator(&self, least: u32) -> Option<Operator>
        requires { Fits 0 self.now × (1 ≤ least) }
        ensures { Binds self.now least result }
    {
        let operator = operator_of(self.kind().ok()?)?;
        if operator.level < least {
            return None;
        }
        Some(operator)
    }

    // The code of the `-`, `+` or NOT that is next.
    fn sign(&self) -> Option<u32>
        requires { Fits 0 self.now }
        ensures { Signed self.now result }
    {
        sign_of(self.kind().ok()?)
    }

    // `(` expression `)`, nested at most 16.
    #[cycle(expressions)]
    fn parentheses(&mut self, nesting: u32) -> Result<(), Refusal>
        requires { Fits 0 self.old × (self.old.next < self.old.count) }
        ensures stays { Stays self.old self.new }
        ensures fine { Moves 0 self.old result self.new }
        ensures means { ReadsWith 2 0 exp_cells self.old result self.new (λ f. in_parens nesting (expr f (suc nesting) 1)) }
    {
        if DEEPEST <= nesting {
            return Err(self.refusal(Fault::TooDeep));
        }
        let place = self.token().place;
        self.skip();
        self.expression(nesting + 1, 1)?;
        self.take(Kind::Close)?;
        self.write(Kind::Open, place, 0);
        Ok(())
    }

    // A name, an integer, TRUE, FALSE, or an expression in parentheses.
    #[cycle(expressions)]
    fn operand(&mut self, nesting: u32) -> Result<(), Refusal>
        requires { Fits 0 self.old }
        ensures stays { Stays self.old self.new }
        ensures fine { Moves 0 self.old result self.new }
        ensures means { ReadsWith 2 0 exp_cells self.old result self.new (λ f. operand nesting (expr f (suc nesting) 1)) }
    {
        let token = self.token();
        let kind = self.kind()?;
        match kind {
            Kind::Name | Kind::Int => {
                self.skip();
                self.write(kind, token.place, token.datum);
                Ok(())
            }
            Kind::True | Kind::False => {
                self.skip();
                self.write(kind, token.place, 0);
                Ok(())
            }
            Kind::Open => self.parentheses(nesting),
            _ => Err(self.refusal(Fault::Unexpected)),
        }
    }

    // One `-`, `+` or NOT before an operand.
    #[cycle(expressions)]
    fn signed_operand(&mut self, nesting: u32) -> Result<(), Refusal>
        requires { Fits 0 self.old }
        ensures stays { Stays self.old self.new }
        ensures fine { Moves 0 self.old result self.new }
        ensures means { ReadsWith 2 0 exp_cells self.old result self.new (λ f. signed_operand (operand nesting (expr f (suc nesting) 1))) }
    {
        let Some(code) = self.sign() else {
            return self.operand(nesting);
        };
        let place = self.token().place;
        self.skip();
        self.operand(nesting)?;
        self.write(Kind::Unary, place, code);
        Ok(())
    }

    // The operator that is next, and its right operand.
    #[cycle(expressions)]
    fn operation(&mut self, operator: Operator, nesting: u32) -> Result<(), Refusal>
        requires { Fits 0 self.old × OperatorAhead self.old operator }
        ensures stays { Stays self.old self.new }
        ensures fine { Moves 0 self.old result self.new }
        ensures on { OnOk result (self.old.next < self.new.next) }
        ensures means { ReadsWith 2 0 right_cells self.old result self.new (λ f. right f nesting) }
    {
        let place = self.token().place;
        self.skip();
        self.expression(nesting, operator.level + 1)?;
        self.write(Kind::Binary, place, operator.code);
        Ok(())
    }

    // An expression of operators of this level and tighter, grouped from the left.
    #[cycle(expressions)]
    fn expression(&mut self, nesting: u32, least: u32) -> Result<(), Refusal>
        requires { Fits 0 self.old × (1 ≤ least) }
        ensures stays { Stays self.old self.new }
        ensures fine { Moves 0 self.old result self.new }
        ensures means { ReadsWith 2 2 exp_cells self.old result self.new (λ f. expr f nesting least) }
    {
        self.signed_operand(nesting)?;
        while let Some(operator) = self.operator(least) {
            self.operation(operator, nesting)?;
        }
        Ok(())
    }

    // An expression that a statement holds, with its first byte behind it.
    pub(crate) fn whole(&mut self) -> Result<(), Refusal>
        requires { Fits 3 self.old }
        ensures stays { Stays self.old self.new }
        ensures fine { Moves 3 self.old result self.new }
        ensures means { ReadsWith 2 2 whole_cells self.old result self.new (λ f. expr f 0 1) }
    {
        let place = self.token().place;
        self.expression(0, 1)?;
        self.write(Kind::Whole, place, 0);
        Ok(())
    }
}
