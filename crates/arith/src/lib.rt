// Exact arithmetic on signed 32-bit numbers: an operator's value, or why it has none.
#![tactic(auto)]

ghost use Rattle.std.specs.Prelude.{◌≡◌};
ghost use Rattle.std.specs.Int.{w32};
ghost use Rattle.std.proofs.Common.{SFits};
ghost use Rattle.rules.specs.Core.{Neg, Mul, Div, Mod, Add, Sub};
ghost use Rattle.rules.specs.Meaning.{unop, binop};
ghost use Rattle.arith.specs.Exact.{ev_of};

// Why an operator has no value.
#[derive(Clone, Copy, PartialEq, Eq)]
pub enum Trap {
    // The exact result is no number of 32 bits.
    Range,
    // The divisor is 0.
    Divide,
    // The operator is none of truth values, and an operand is another number.
    Bad,
}

pub fn add(a: i32, b: i32) -> Result<i32, Trap>
    ensures { ev_of result ≡ binop Add a b }
{
    a.checked_add(b).ok_or(Trap::Range)
}

pub fn sub(a: i32, b: i32) -> Result<i32, Trap>
    ensures { ev_of result ≡ binop Sub a b }
{
    a.checked_sub(b).ok_or(Trap::Range)
}

pub fn mul(a: i32, b: i32) -> Result<i32, Trap>
    ensures { ev_of result ≡ binop Mul a b }
{
    a.checked_mul(b).ok_or(Trap::Range)
}

pub fn neg(a: i32) -> Result<i32, Trap>
    ensures { ev_of result ≡ unop Neg a }
{
    a.checked_neg().ok_or(Trap::Range)
}

// The quotient, truncated toward zero.
pub fn div(a: i32, b: i32) -> Result<i32, Trap>
    ensures { ev_of result ≡ binop Div a b }
{
    if b == 0 {
        return Err(Trap::Divide);
    }
    a.checked_div(b).ok_or(Trap::Range)
}

// The remainder. It is always a number of 32 bits, also where the quotient is none.
pub fn rem(a: i32, b: i32) -> Result<i32, Trap>
    ensures { ev_of result ≡ binop Mod a b }
{
    if b == 0 {
        return Err(Trap::Divide);
    }
    Ok((wide(a) % wide(b)) as i32)
}

// The same number, in 64 bits: still a number of 32.
pub fn wide(x: i32) -> i64
    ensures { (result ≡ x) × (SFits w32 result) }
{
    i64::from(x)
}
