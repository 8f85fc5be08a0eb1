// What stands at the start of a text: a gap or a token, or a fault.
ghost use Rattle.std.specs.Prelude.{◌≡◌, ◌<◌, length, get_or};
ghost use Rattle.rules.specs.Tokens.{piece};
ghost use Rattle.scan.specs.Pieces.{answered, shown};

use super::{bytes, comments, integers, symbols, words};
use rules::{Fault, Kind};

#[derive(Clone, Copy)]
pub(crate) enum Piece {
    // Blanks and comments: how many bytes.
    Gap(usize),
    // The kind, a name's length or an integer's value, and how many bytes.
    Token(Kind, u32, usize),
}

// The piece at the start of the text.
#[tactic(auto, unfolding(rules::specs::Tokens::piece, rules::specs::Tokens::starts, rules::specs::Tokens::is_blank, rules::specs::Tokens::is_digit, rules::specs::Tokens::within, crate::specs::Pieces::shown))]
pub(crate) fn first(text: &[u8]) -> Result<Piece, Fault>
    requires { 0 < length text.now }
    ensures { answered result ≡ shown (piece (get_or text.now 0 0) text.now 0) }
{
    let x = text[0];
    // Space, tab, LF, FF, CR.
    if x.is_ascii_whitespace() {
        return Ok(Piece::Gap(1));
    }
    match text {
        [b'/', b'/', ..] => Ok(Piece::Gap(bytes::run(text, bytes::in_line).len())),
        [b'/', b'*', ..] => Err(Fault::NoToken),
        [b'(', b'*', ..] => comments::nested(text),
        _ if bytes::starts_name(x) => words::word(text),
        _ if x.is_ascii_digit() => integers::integer(text),
        _ => symbols::symbol(text),
    }
}
