// The image of a text that the walk accepts: sizes, code, and the records around it.
#![tactic(auto)]

mod codes;
mod expressions;
mod records;
mod sizes;
mod statements;

ghost use Rattle.std.specs.Prelude.{◌≡◌, length};
ghost use Rattle.rules.specs.Compile.{compile, buffer_after};
ghost use Rattle.rules.specs.CoreCells.{walked};
ghost use Rattle.rules.specs.Answers.{answer_of, compiled_as};

use rules::{Compiled, Refusal};

// The image at the front of the buffer, or the refusal, and then no byte of it is written. The core program stays in working memory as the walk left it.
pub fn emit(text: &[u8], memory: &mut [u32], image: &mut [u8]) -> Result<Compiled, Refusal>
    ensures means { answer_of result ≡ compiled_as (compile (length memory.old) (length image.old) text.now) }
    ensures writes { image.new ≡ buffer_after (compile (length memory.old) (length image.old) text.now) image.old }
    ensures leaves { memory.new ≡ (walked text.now memory.old).memory }
{
    let stated = figures::figures(text, memory)?;
    records::finish(memory, image, text.len(), stated)
}
