// Symbols: two bytes before one.
ghost use Rattle.std.specs.Prelude.{◌≡◌, ◌<◌, length, get_or};
ghost use Rattle.rules.specs.Kinds.{FINISH};
ghost use Rattle.rules.specs.Tokens.{symbol1, symbol2, symbol_piece};
ghost use Rattle.scan.specs.Pieces.{answered, shown, Finds};

use super::pieces::Piece;
use rules::{Fault, Kind};

#[tactic(auto, unfolding(rules::specs::Tokens::symbol2, rules::specs::Tokens::starts))]
fn of_two(text: &[u8]) -> Option<Kind>
    ensures { Finds FINISH result (symbol2 text.now) }
{
    match text {
        [b':', b'=', ..] => Some(Kind::Assign),
        [b'.', b'.', ..] => Some(Kind::Dots),
        [b'<', b'=', ..] => Some(Kind::LessEq),
        [b'>', b'=', ..] => Some(Kind::MoreEq),
        [b'<', b'>', ..] => Some(Kind::UnEq),
        _ => None,
    }
}

#[tactic(auto, unfolding(rules::specs::Tokens::symbol1))]
fn of_one(x: u8) -> Option<Kind>
    ensures { Finds FINISH result (symbol1 x) }
{
    match x {
        b':' => Some(Kind::Colon),
        b';' => Some(Kind::Semi),
        b',' => Some(Kind::Comma),
        b'(' => Some(Kind::Open),
        b')' => Some(Kind::Close),
        b'+' => Some(Kind::Plus),
        b'-' => Some(Kind::Minus),
        b'*' => Some(Kind::Star),
        b'/' => Some(Kind::Slash),
        b'<' => Some(Kind::Less),
        b'>' => Some(Kind::More),
        b'=' => Some(Kind::Equal),
        b'&' => Some(Kind::Amp),
        _ => None,
    }
}

// The symbol at the start of the text.
#[tactic(auto, using(crate::proofs::Shown::two_bytes, crate::proofs::Shown::one_byte, crate::proofs::Shown::no_symbol))]
pub(crate) fn symbol(text: &[u8]) -> Result<Piece, Fault>
    requires { 0 < length text.now }
    ensures { answered result ≡ shown (symbol_piece (symbol2 text.now) (symbol1 (get_or text.now 0 0)) 0) }
{
    if let Some(kind) = of_two(text) {
        return Ok(Piece::Token(kind, 0, 2));
    }
    let kind = of_one(text[0]).ok_or(Fault::NoToken)?;
    Ok(Piece::Token(kind, 0, 1))
}
