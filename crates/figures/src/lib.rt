// The depth and the worst case of a text's code.
#![tactic(auto)]

mod expressions;
mod statements;
mod sums;

ghost use Rattle.std.specs.Prelude.{◌≡◌, length};
ghost use Rattle.rules.specs.CoreCells.{program_for, walked};
ghost use Rattle.rules.specs.Answers.{answer_of, figured};
ghost use Rattle.figures.specs.Parts.{ProgramFits};

use cells::Reader;
use rules::{Kind, Limits, Refusal, Stated};

// Statements are nested no deeper.
const LEVELS: u32 = 16;

// Depth and worst case; the core program is left in working memory as the walk leaves it.
pub fn figures(text: &[u8], memory: &mut [u32]) -> Result<Stated, Refusal>
    ensures means { answer_of result ≡ figured (program_for (length memory.old) text.now) }
    ensures leaves { memory.new ≡ (walked text.now memory.old).memory }
    ensures fits { ProgramFits (program_for (length memory.old) text.now) }
{
    walk::walk(text, memory)?;
    let mut reader = Reader::new(memory, Limits::TOKEN_NUMBERS);
    // The statements lie behind the variables, which the end of their list closes.
    reader.read_past(Kind::Finish);
    let all = statements::list(&mut reader, LEVELS);
    Ok(Stated {
        depth: all.depth,
        worst: ticks::figure(all.worst),
    })
}
