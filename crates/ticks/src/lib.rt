// Worst cases in 32-bit numbers (01, worst case). A number of ticks is exact up to 4,000,000,000. A larger exact total is held as one more than that:
// it must not be taken for an unbounded one, since a FOR with no passes takes 1 tick however long its body is.
#![tactic(auto)]

ghost use Rattle.std.specs.Prelude.{◌≡◌, ◌≤◌, pos, ◌-ℤ◌};
ghost use Rattle.rules.specs.Worst.{fin, add_w, max_w, lit, to_nat, pass_count, for_w, figure};
ghost use Rattle.ticks.specs.Bounds.{bound_of, cut};

use rules::Limits;

// Totals are exact up to here.
const LIMIT: u32 = 4000000000;

// Stands for every larger exact total.
const CAPPED: u32 = LIMIT + 1;

// An exact total, cut to one more than the limit.
#[tactic(auto, unfolding(crate::specs::Bounds::cut))]
fn exact(total: u64) -> u32
    ensures { result ≡ cut (fin total) }
{
    total.min(u64::from(CAPPED)) as u32
}

// A bound is the number that the image states, with the mark for an unbounded one: an Option would be made and taken apart again in each function.
#[tactic(auto, unfolding(rules::specs::Worst::add_w, crate::specs::Bounds::bound_of, crate::specs::Bounds::cut))]
pub fn add(a: u32, b: u32) -> u32
    ensures { result ≡ cut (add_w (bound_of a) (bound_of b)) }
{
    if a == Limits::UNBOUNDED || b == Limits::UNBOUNDED {
        return Limits::UNBOUNDED;
    }
    exact(u64::from(a) + u64::from(b))
}

// Any number as the number that a bound is held as.
#[tactic(auto, unfolding(crate::specs::Bounds::bound_of, crate::specs::Bounds::cut))]
fn trimmed(bound: u32) -> u32
    ensures { result ≡ cut (bound_of bound) }
{
    if bound == Limits::UNBOUNDED {
        return Limits::UNBOUNDED;
    }
    exact(u64::from(bound))
}

// The mark is the largest number, so the larger number is the larger bound.
#[tactic(auto, unfolding(rules::specs::Worst::max_w, crate::specs::Bounds::bound_of))]
pub fn larger(a: u32, b: u32) -> u32
    ensures { result ≡ cut (max_w (bound_of a) (bound_of b)) }
{
    trimmed(a.max(b))
}

// How far the lower number is below the higher; 0 if it is not below.
#[tactic(auto, using(crate::proofs::Counts::above, crate::proofs::Counts::below))]
fn gap(lower: i32, higher: i32) -> u32
    ensures { result ≡ to_nat (higher -ℤ lower) }
{
    if higher < lower {
        0
    } else {
        higher.abs_diff(lower)
    }
}

// The passes from one number up to another: one, and one more for each whole step that fits between.
#[tactic(auto, using(crate::proofs::Counts::no_pass, crate::proofs::Counts::some_passes, crate::proofs::Counts::divided))]
fn upward(from: i32, to: i32, by: u32) -> u64
    ensures { (result ≡ pass_count from to (pos by)) × (result ≤ 4294967296) }
{
    if to < from {
        return 0;
    }
    1 + u64::from(gap(from, to).checked_div(by).unwrap_or(0))
}

// The passes of a FOR. A step of 0, which no text has, counts as one pass.
pub fn count(first: i32, last: i32, step: i32) -> u64
    ensures { (result ≡ pass_count first last step) × (result ≤ 4294967296) }
{
    let by = step.unsigned_abs();
    if step < 0 {
        upward(last, first, by)
    } else {
        upward(first, last, by)
    }
}

// A FOR around a body.
#[tactic(auto, unfolding(rules::specs::Worst::for_w, crate::specs::Bounds::bound_of, crate::specs::Bounds::cut))]
pub fn looped(first: i32, last: i32, step: i32, body: u32) -> u32
    ensures { result ≡ cut (for_w (lit first) (lit last) step (bound_of body)) }
{
    if body == Limits::UNBOUNDED {
        return Limits::UNBOUNDED;
    }
    exact(1 + count(first, last, step) * (1 + u64::from(body)))
}

// What the image states.
#[tactic(auto, unfolding(rules::specs::Worst::figure, crate::specs::Bounds::bound_of))]
pub fn figure(a: u32) -> u32
    ensures { result ≡ figure (bound_of a) }
{
    if a <= LIMIT { a } else { Limits::UNBOUNDED }
}
