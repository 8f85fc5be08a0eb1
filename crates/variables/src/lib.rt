// The variables of an image's first record: how many, their types and initial values.
#![tactic(auto)]

ghost use Rattle.std.specs.Prelude.{[], ◌≡◌, pos, length, get_or, MatchOption};
ghost use Rattle.rules.specs.Numbers.{dint, is_dint, holds};
ghost use Rattle.rules.specs.Image.{type_in, variable_in, variables_in};
ghost use Rattle.variables.specs.Slots.{is_some, types_in, values_in, fives, kind_byte, value_in};

// A variable has so many bytes: its type, and its initial value.
const SIZE: usize = 5;

// What the bytes of a variable say of its initial value.
fn value(bytes: &[u8; SIZE]) -> i32
    ensures { result ≡ value_in bytes.now }
{
    let [_, b0, b1, b2, b3] = *bytes;
    octets::value_of(b0, b1, b2, b3)
}

// Whether the bytes are a variable: a type that there is, and a value that it holds.
fn is_variable(bytes: &[u8; SIZE]) -> bool
    ensures { result ≡ is_some (variable_in (type_in (kind_byte bytes.now)) (value_in bytes.now)) }
{
    let value = value(bytes);
    match bytes[0] {
        1 => compare::within(0, 1, value),
        2 => true,
        _ => false,
    }
}

// Whether a payload of kind 1 holds variables and nothing else.
pub fn are_variables(vars: &[u8]) -> bool
    ensures { result ≡ is_some (variables_in vars.now) }
{
    let (variables, rest) = vars.as_chunks::<SIZE>();
    rest.is_empty() && variables.iter().all(is_variable)
}

// How many variables there are.
pub fn count(vars: &[u8]) -> usize
    ensures { result ≡ length (types_in vars.now) }
{
    vars.len() / SIZE
}

// The bytes of a variable, if there is one in the slot.
fn variable(vars: &[u8], slot: usize) -> Option<&[u8; SIZE]>
    ensures { MatchOption result (get_or (fives vars.now) slot [] ≡ []) (λ bytes. bytes.now ≡ get_or (fives vars.now) slot []) }
{
    let (variables, _) = vars.as_chunks::<SIZE>();
    variables.get(slot)
}

// Whether a variable is a DINT.
#[tactic(auto, using(crate::proofs::Values::dint_at))]
pub fn is_dint(vars: &[u8], slot: usize) -> bool
    ensures { result ≡ is_dint (get_or (types_in vars.now) slot dint) }
{
    variable(vars, slot).is_none_or(|bytes| bytes[0] != 1)
}

// Whether a variable's type holds a value.
#[tactic(auto, using(crate::proofs::Values::dint_may, crate::proofs::Values::bool_may))]
pub fn may_hold(vars: &[u8], slot: usize, value: i32) -> bool
    ensures { result ≡ holds (get_or (types_in vars.now) slot dint) value }
{
    is_dint(vars, slot) || compare::within(0, 1, value)
}

// A variable's initial value.
#[tactic(auto, using(crate::proofs::Values::value_at, crate::proofs::Values::nothing_is))]
pub fn initial(vars: &[u8], slot: usize) -> i32
    ensures { result ≡ get_or (values_in vars.now) slot (pos 0) }
{
    variable(vars, slot).map_or(0, value)
}
