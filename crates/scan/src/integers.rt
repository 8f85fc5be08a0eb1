// Integers: decimal, or `2#`, `8#`, `16#`.
ghost use Rattle.std.specs.Prelude.{◌≡◌, false, ◌≤◌, length, None, Some, MatchOption};
ghost use Rattle.rules.specs.Tokens.{in_integer, run, digits as digits_from, integer, integer_piece};
ghost use Rattle.scan.specs.Pieces.{answered, shown, limited, base_of};

use super::bytes;
use super::pieces::Piece;
use rules::{Fault, Kind};

// The largest integer that a token has.
const LARGEST: u32 = 2147483648;

// The value of the digits at the start of the text, if it is not too large, and how many bytes they are. A single underscore may stand between two.
// One loop does both, and ends at the first fault, so that a long token is read once, and a bad one no further.
fn value_of(text: &[u8], base: u32) -> Option<(u32, usize)>
    requires { (2 ≤ base) × (base ≤ 16) }
    ensures { MatchOption result (limited (digits_from base 0 false (run in_integer text.now)) ≡ None)
        (λ r. (limited (digits_from base 0 false (run in_integer text.now)) ≡ Some r.0) × (length (run in_integer text.now) ≡ r.1)) }
{
    let mut value: u32 = 0;
    let mut after_digit = false;
    let mut length = 0;
    for &x in text {
        if x == b'_' {
            if !after_digit {
                return None;
            }
            after_digit = false;
        } else if let Some(digit) = (x as char).to_digit(base) {
            value = value.saturating_mul(base).saturating_add(digit);
            after_digit = true;
        } else if bytes::in_integer(x) {
            return None;
        } else {
            break;
        }
        length += 1;
    }
    if after_digit && value <= LARGEST {
        Some((value, length))
    } else {
        None
    }
}

// The base that the first bytes name, and how many bytes name it.
#[tactic(auto, unfolding(rules::specs::Tokens::starts, crate::specs::Pieces::base_of))]
fn base_of(text: &[u8]) -> (u32, usize)
    ensures means { result ≡ base_of text.now }
    ensures low { 2 ≤ result.0 }
    ensures high { result.0 ≤ 16 }
    ensures within { result.1 ≤ length text.now }
{
    match text {
        [b'2', b'#', ..] => (2, 2),
        [b'8', b'#', ..] => (8, 2),
        [b'1', b'6', b'#', ..] => (16, 3),
        _ => (10, 0),
    }
}

// The integer at the start of the text.
#[tactic(auto, using(crate::proofs::Bases::an_integer, crate::proofs::Bases::no_integer, crate::proofs::Bases::no_longer))]
pub(crate) fn integer(text: &[u8]) -> Result<Piece, Fault>
    ensures { answered result ≡ shown (integer_piece (integer (run in_integer text.now)) (length (run in_integer text.now)) 0) }
{
    let (base, start) = base_of(text);
    let (value, length) = value_of(&text[start..], base).ok_or(Fault::BadInteger)?;
    Ok(Piece::Token(Kind::Int, value, start + length))
}
