// Comparisons, ranges, and FOR's test and step.
#![tactic(auto)]

ghost use Rattle.std.specs.Prelude.{◌≡◌};
ghost use Rattle.std.specs.Int.Signed.{lt_z, le_z};
ghost use Rattle.rules.specs.Meaning.{passes};
ghost use Rattle.rules.specs.Numbers.{between, eq_z, is_zero};
ghost use Rattle.compare.specs.Advancing.{advance_of};

pub fn lt(a: i32, b: i32) -> bool
    ensures { result ≡ lt_z a b }
{
    a < b
}

pub fn le(a: i32, b: i32) -> bool
    ensures { result ≡ le_z a b }
{
    a <= b
}

// Whether z is neither below the lowest nor above the highest.
pub fn within(lowest: i32, highest: i32, z: i32) -> bool
    ensures { result ≡ between lowest highest z }
{
    lowest <= z && z <= highest
}

pub fn same(a: i32, b: i32) -> bool
    ensures { result ≡ eq_z a b }
{
    a == b
}

pub fn is_zero(a: i32) -> bool
    ensures { result ≡ is_zero a }
{
    a == 0
}

// Whether a FOR's variable is past the final value.
pub fn passes(v: i32, step: i32, last: i32) -> bool
    ensures { result ≡ passes step v last }
{
    if 0 <= step { last < v } else { v < last }
}

// The next value of a FOR's variable, unless that ends the loop. A sum that is no number of 32 bits passes every final value.
pub fn advanced(v: i32, step: i32, last: i32) -> Option<i32>
    ensures { result ≡ advance_of v step last }
{
    let next = v.checked_add(step)?;
    if passes(next, step, last) {
        None
    } else {
        Some(next)
    }
}
