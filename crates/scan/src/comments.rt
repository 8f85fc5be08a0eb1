// Comments in parentheses: they nest.
ghost use Rattle.std.specs.Prelude.{◌≡◌, ◌≤◌, length, drop, IsTrue};
ghost use Rattle.rules.specs.Tokens.{starts, comment, comment_piece};
ghost use Rattle.scan.specs.Pieces.{answered, shown};

use super::pieces::Piece;
use rules::Fault;

// Whether the text starts with what opens a comment.
#[tactic(auto, unfolding(rules::specs::Tokens::starts))]
fn opens(text: &[u8]) -> bool
    ensures value { result ≡ starts 40 42 text.now }
    ensures bound { IsTrue result → 2 ≤ length text.now }
{
    matches!(text, [b'(', b'*', ..])
}

// Whether the text starts with what closes a comment.
#[tactic(auto, unfolding(rules::specs::Tokens::starts))]
fn closes(text: &[u8]) -> bool
    ensures value { result ≡ starts 42 41 text.now }
    ensures bound { IsTrue result → 2 ≤ length text.now }
{
    matches!(text, [b'*', b')', ..])
}

// A comment that opens at the start of the text. Nesting is a count.
pub(crate) fn nested(text: &[u8]) -> Result<Piece, Fault>
    requires { 2 ≤ length text.now }
    ensures { answered result ≡ shown (comment_piece (comment 2 1 (drop 2 text.now))) }
{
    let mut rest = &text[2..];
    let mut open: usize = 1;
    while open > 0 {
        if opens(rest) {
            open += 1;
            rest = &rest[2..];
        } else if closes(rest) {
            open -= 1;
            rest = &rest[2..];
        } else if rest.is_empty() {
            return Err(Fault::NoToken);
        } else {
            rest = &rest[1..];
        }
    }
    Ok(Piece::Gap(text.len() - rest.len()))
}
