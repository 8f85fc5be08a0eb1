// Compiling a text to an image, and compiling and running it once.
#![tactic(auto)]

ghost use Rattle.std.specs.Prelude.{◌≡◌, ◌≤◌, length, IfOk};
ghost use Rattle.rules.specs.Compile.{compile, buffer_after, memory_after};
ghost use Rattle.rules.specs.Evaluate.{evaluate, table_after};
ghost use Rattle.rules.specs.Answers.{answer_of, compiled_as, evaluated_as};
ghost use Rattle.compile.specs.Bare.{bare};

use rules::{Compiled, Evaluated, Fault, Refusal};

// Only too short a working memory stays as it was lent.
fn clear(memory: &mut [u32], answer: Result<Compiled, Refusal>)
    ensures { memory.new ≡ memory_after (bare answer) memory.old }
{
    match answer {
        Err(refusal) if refusal.fault == Fault::ShortMemory => {}
        _ => scan::clear(memory),
    }
}

// The image's bytes come to the front of the buffer, and the rest of it stays; a refusal changes no byte. Working memory ends all zero, but for 17.
pub fn compile(text: &[u8], memory: &mut [u32], image: &mut [u8]) -> Result<Compiled, Refusal>
    ensures means { answer_of result ≡ compiled_as (compile (length memory.old) (length image.old) text.now) }
    ensures fits { IfOk result (λ compiled. compiled.image ≤ length image.new) }
    ensures writes { image.new ≡ buffer_after (compile (length memory.old) (length image.old) text.now) image.old }
    ensures clears { memory.new ≡ memory_after (compile (length memory.old) (length image.old) text.now) memory.old }
{
    let answer = emit::emit(text, memory, image);
    clear(memory, answer);
    answer
}

// The text is compiled and its image run once: what evaluating the text gives, or its refusal, which leaves the table alone.
pub fn compile_and_run(
    text: &[u8],
    memory: &mut [u32],
    image: &mut [u8],
    table: &mut [i32],
    budget: u32,
) -> Result<Evaluated, Refusal>
    ensures means { evaluated_as result table.new ≡ evaluate (length memory.old) (length image.old) text.now budget table.old }
    ensures stores { table.new ≡ table_after (evaluate (length memory.old) (length image.old) text.now budget table.old) table.old }
    ensures writes { image.new ≡ buffer_after (compile (length memory.old) (length image.old) text.now) image.old }
    ensures clears { memory.new ≡ memory_after (compile (length memory.old) (length image.old) text.now) memory.old }
{
    match compile(text, memory, image) {
        Ok(compiled) => {
            let report = run::run(&image[..compiled.image], table, budget);
            Ok(Evaluated {
                outcome: report.outcome,
                ticks: report.ticks,
            })
        }
        Err(refusal) => Err(refusal),
    }
}
