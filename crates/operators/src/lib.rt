// What an operator of the code answers for its operands.
#![tactic(auto)]

ghost use Rattle.std.specs.Prelude.{◌||◌, ◌&&◌, not, ◌≡◌};
ghost use Rattle.rules.specs.Core.{Not};
ghost use Rattle.rules.specs.Meaning.{unop, logic, binop};
ghost use Rattle.rules.specs.Numbers.{bool, holds, of_bool, is_zero};
ghost use Rattle.arith.specs.Exact.{ev_of};
ghost use Rattle.codes.specs.Table.{un_of, bin_of};

use arith::Trap;
use codes::{Operator, Prefix};

// TRUE is 1, FALSE is 0.
#[tactic(auto, unfolding(rules::specs::Numbers::of_bool))]
pub fn flag(b: bool) -> i32
    ensures { result ≡ of_bool b }
{
    i32::from(b)
}

#[tactic(auto, using(std::proofs::lemmas::Int::ints), unfolding(rules::specs::Numbers::holds, rules::specs::Numbers::low, rules::specs::Numbers::high))]
fn is_flag(x: i32) -> bool
    ensures { result ≡ holds bool x }
{
    compare::within(0, 1, x)
}

// A logic operator's result, where both operands are truth values.
#[tactic(auto, using(std::proofs::lemmas::Int::ints), unfolding(rules::specs::Meaning::logic))]
fn logic(x: i32, y: i32, res: bool) -> Result<i32, Trap>
    ensures { ev_of result ≡ logic x y res }
{
    if !(is_flag(x) && is_flag(y)) {
        return Err(Trap::Bad);
    }
    Ok(flag(res))
}

#[tactic(auto, using(std::proofs::lemmas::Int::ints))]
fn both_true(x: i32, y: i32) -> bool
    ensures { result ≡ not (is_zero x || is_zero y) }
{
    !(compare::is_zero(x) || compare::is_zero(y))
}

#[tactic(auto, using(std::proofs::lemmas::Int::ints))]
fn one_true(x: i32, y: i32) -> bool
    ensures { result ≡ not (is_zero x && is_zero y) }
{
    !(compare::is_zero(x) && compare::is_zero(y))
}

#[tactic(auto, using(std::proofs::lemmas::Int::ints), unfolding(rules::specs::Meaning::unop))]
fn invert(x: i32) -> Result<i32, Trap>
    ensures { ev_of result ≡ unop Not x }
{
    if is_flag(x) {
        Ok(flag(compare::is_zero(x)))
    } else {
        Err(Trap::Bad)
    }
}

#[tactic(auto, using(std::proofs::lemmas::Int::ints))]
pub fn apply_prefix(o: Prefix, x: i32) -> Result<i32, Trap>
    ensures { ev_of result ≡ unop (un_of o) x }
{
    match o {
        Prefix::Neg => arith::neg(x),
        Prefix::Not => invert(x),
    }
}

#[tactic(auto, using(std::proofs::lemmas::Int::ints), unfolding(rules::specs::Meaning::binop))]
pub fn apply(o: Operator, x: i32, y: i32) -> Result<i32, Trap>
    ensures { ev_of result ≡ binop (bin_of o) x y }
{
    match o {
        Operator::Mul => arith::mul(x, y),
        Operator::Div => arith::div(x, y),
        Operator::Mod => arith::rem(x, y),
        Operator::Add => arith::add(x, y),
        Operator::Sub => arith::sub(x, y),
        Operator::Lt => Ok(flag(compare::lt(x, y))),
        Operator::Gt => Ok(flag(compare::lt(y, x))),
        Operator::Le => Ok(flag(compare::le(x, y))),
        Operator::Ge => Ok(flag(compare::le(y, x))),
        Operator::Eq => Ok(flag(compare::same(x, y))),
        Operator::Ne => Ok(flag(!compare::same(x, y))),
        Operator::And => logic(x, y, both_true(x, y)),
        Operator::Xor => logic(x, y, !compare::same(x, y)),
        Operator::Or => logic(x, y, one_true(x, y)),
    }
}
