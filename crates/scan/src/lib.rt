// A text becomes tokens in lent numbers, or is refused: 17, 1, 2, 3, 4.
#![tactic(auto)]

mod bytes;
mod cells;
mod comments;
mod integers;
mod pieces;
mod symbols;
mod words;

ghost use Rattle.std.specs.Prelude.{◌≡◌, ◌≤◌, length, replicate, MatchResult};
ghost use Rattle.rules.specs.Limits.{token_numbers};
ghost use Rattle.rules.specs.Cells.{scanned};
ghost use Rattle.rules.specs.Answers.{left, TokensFit};

use cells::Cell;
use pieces::Piece;
use rules::{Fault, Kind, Limits, Refusal};

// Fills all lent numbers with zero.
pub fn clear(memory: &mut [u32])
    ensures { memory.new ≡ replicate (length memory.old) 0 }
{
    memory.fill(0);
}

// The tokens of the text, three numbers each, from the first lent number on.
#[tactic(auto, using(crate::proofs::Scanning::scanned_little))]
pub fn scan(text: &[u8], memory: &mut [u32]) -> Result<usize, Refusal>
    ensures means { left result memory.new ≡ scanned text.now memory.old }
    ensures fits { TokensFit result }
{
    if memory.len() < Limits::TOKEN_NUMBERS {
        return Err(Refusal {
            fault: Fault::ShortMemory,
            place: 0,
        });
    }
    let tokens = put_tokens(text, memory);
    // A refusal leaves all zero.
    if tokens.is_err() {
        clear(memory);
    }
    tokens
}

// How many tokens the text has. Where it is refused, the tokens before stay.
fn put_tokens(text: &[u8], memory: &mut [u32]) -> Result<usize, Refusal>
    requires { token_numbers ≤ length memory.old }
    ensures means { MatchResult result (λ _. left result memory.new ≡ scanned text.now memory.old)
        (λ _. left result (replicate (length memory.old) 0) ≡ scanned text.now memory.old) }
    ensures fits { TokensFit result }
{
    if Limits::TEXT < text.len() {
        return Err(Refusal {
            fault: Fault::LongText,
            place: Limits::TEXT,
        });
    }
    let mut place = 0;
    let mut count = 0;
    // A piece says how far it is to the next one, so no range counts the places.
    while place < text.len() {
        match pieces::first(&text[place..]) {
            Ok(Piece::Gap(length)) => place += length,
            Ok(Piece::Token(kind, datum, length)) => {
                Cell { kind, place, datum }.put(memory, 3 * count);
                count += 1;
                place += length;
            }
            Err(fault) => return Err(Refusal { fault, place }),
        }
    }
    let end = Cell {
        kind: Kind::Finish,
        place,
        datum: 0,
    };
    end.put(memory, 3 * count);
    Ok(count + 1)
}
