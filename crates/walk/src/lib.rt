// The tree becomes the core program in lent numbers, or the text is refused: 4 for constants, 6 to 12, 15, 16.
#![tactic(auto)]

mod constants;
mod declarations;
mod expressions;
mod operands;
mod scope;
mod statements;
mod steps;

ghost use Rattle.std.specs.Prelude.{◌≡◌, length};
ghost use Rattle.rules.specs.CoreCells.{walked};
ghost use Rattle.rules.specs.Answers.{left, TreeFits};
ghost use Rattle.walk.specs.Cleared.{Cleared};
ghost use Rattle.walk.specs.Program.{ProgramMeans};

use rules::{Limits, Refusal};
use scope::Scope;

// Only the program stays, which ends where the free numbers begin.
fn clear_around(memory: &mut [u32], free: usize)
    ensures { Cleared memory.old free memory.new }
{
    if memory.len() < free {
        return;
    }
    if free < Limits::TOKEN_NUMBERS {
        return;
    }
    scan::clear(&mut memory[..Limits::TOKEN_NUMBERS]);
    scan::clear(&mut memory[free..]);
}

// The program over the tree, from number Limits::TOKEN_NUMBERS on: where it ends.
fn program(text: &[u8], memory: &mut [u32]) -> Result<usize, Refusal>
    ensures means { ProgramMeans text.now memory.old memory.new result }
{
    let mut walk = steps::Walk {
        memory,
        at: Limits::TOKEN_NUMBERS,
        free: Limits::TOKEN_NUMBERS,
        top: steps::STACK,
    };
    let names = walk.declarations(text)?;
    let scope = Scope {
        text,
        names,
        taken: [false; 64],
        inside: false,
    };
    walk.list(&scope)?;
    Ok(walk.free)
}

// The core program from number Limits::TOKEN_NUMBERS on, and zeros around it.
pub fn walk(text: &[u8], memory: &mut [u32]) -> Result<usize, Refusal>
    ensures means { left result memory.new ≡ walked text.now memory.old }
    ensures fits { TreeFits result }
{
    parse::parse(text, memory)?;
    match program(text, memory) {
        Ok(free) => {
            clear_around(memory, free);
            Ok(free - Limits::TOKEN_NUMBERS)
        }
        Err(refusal) => {
            scan::clear(memory);
            Err(refusal)
        }
    }
}
