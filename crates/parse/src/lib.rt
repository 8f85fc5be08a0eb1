// Tokens become the tree in lent numbers, or the text is refused: 17, 1 to 5, and 10 for nesting.
#![tactic(auto)]

mod constants;
mod declarations;
mod expressions;
mod parser;
mod statements;

ghost use Rattle.std.specs.Prelude.{◌≡◌};
ghost use Rattle.rules.specs.Cells.{parsed};
ghost use Rattle.rules.specs.Answers.{left, TreeFits};

use parser::Parser;
use rules::{Fault, Limits, Refusal};

// The tokens of the text from the first lent number on, and the tree from number Limits::TOKEN_NUMBERS on.
#[tactic(auto, using(crate::proofs::Whole::parsed_little))]
pub fn parse(text: &[u8], memory: &mut [u32]) -> Result<usize, Refusal>
    ensures means { left result memory.new ≡ parsed text.now memory.old }
    ensures fits { TreeFits result }
{
    if memory.len() < Limits::MEMORY_NUMBERS {
        return Err(Refusal {
            fault: Fault::ShortMemory,
            place: 0,
        });
    }
    let count = scan::scan(text, memory)?;
    let mut parser = Parser {
        memory,
        count,
        next: 0,
        free: Limits::TOKEN_NUMBERS,
    };
    match parser.program() {
        Ok(()) => Ok(parser.free - Limits::TOKEN_NUMBERS),
        Err(refusal) => {
            scan::clear(memory);
            Err(refusal)
        }
    }
}
