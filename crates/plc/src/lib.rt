// The static library: compiling a text, running an image on a table, both in one, and filling a table with an image's initial values, for C and Rust.
// A slice is a pointer and a length there; an answer is its number.
#![tactic(auto)]

ghost use Rattle.std.specs.Prelude.{◌≡◌, length};
ghost use Rattle.rules.specs.Compile.{compile, buffer_after, memory_after};
ghost use Rattle.rules.specs.Evaluate.{evaluate, table_after};
ghost use Rattle.rules.specs.Run.{run_image, fill_image};
ghost use Rattle.plc.specs.Numbers.{listed, told};

use rules::{Evaluated, Refusal};

// 0 is given back, and the lengths of image and code, the depth and the worst case are written through the references; or the number of the refusal is given
// back, and its place is written. What does not apply is 0.
#[unsafe(no_mangle)]
pub extern "C" fn moffatrell_compile(
    text: &[u8],
    memory: &mut [u32],
    image: &mut [u8],
    place: &mut usize,
    bytes: &mut usize,
    code: &mut usize,
    depth: &mut u32,
    worst: &mut u32,
) -> u32
    ensures means { record { number = result; place = place.new; image = bytes.new; code = code.new; depth = depth.new; worst = worst.new } ≡ listed (compile (length memory.old) (length image.old) text.now) }
    ensures writes { image.new ≡ buffer_after (compile (length memory.old) (length image.old) text.now) image.old }
    ensures clears { memory.new ≡ memory_after (compile (length memory.old) (length image.old) text.now) memory.old }
{
    match compile::compile(text, memory, image) {
        Ok(compiled) => {
            *place = 0;
            *bytes = compiled.image;
            *code = compiled.code;
            *depth = compiled.depth;
            *worst = compiled.worst;
            0
        }
        Err(refusal) => {
            *place = refusal.place;
            *bytes = 0;
            *code = 0;
            *depth = 0;
            *worst = 0;
            refusal.fault.number()
        }
    }
}

// The number of the outcome is given back, and the ticks are written; or the number of the text's refusal is given back, and its place is written.
#[unsafe(no_mangle)]
pub extern "C" fn moffatrell_compile_and_run(
    text: &[u8],
    memory: &mut [u32],
    image: &mut [u8],
    table: &mut [i32],
    budget: u32,
    place: &mut usize,
    ticks: &mut u32,
) -> u32
    ensures means { record { number = result; place = place.new; ticks = ticks.new } ≡ told (evaluate (length memory.old) (length image.old) text.now budget table.old) }
    ensures stores { table.new ≡ table_after (evaluate (length memory.old) (length image.old) text.now budget table.old) table.old }
    ensures writes { image.new ≡ buffer_after (compile (length memory.old) (length image.old) text.now) image.old }
    ensures clears { memory.new ≡ memory_after (compile (length memory.old) (length image.old) text.now) memory.old }
{
    match compile::compile_and_run(text, memory, image, table, budget) {
        Ok(
            Evaluated {
                outcome,
                ticks: taken,
            },
        ) => {
            *place = 0;
            *ticks = taken;
            outcome.number()
        }
        Err(Refusal { fault, place: at }) => {
            *place = at;
            *ticks = 0;
            fault.number()
        }
    }
}

// The outcome's number is given back, and the rest of the report is written through the three references.
#[unsafe(no_mangle)]
pub extern "C" fn moffatrell_run(
    image: &[u8],
    table: &mut [i32],
    budget: u32,
    ticks: &mut u32,
    instructions: &mut u64,
    offset: &mut usize,
) -> u32
    ensures { record { outcome = result; ticks = ticks.new; instructions = instructions.new; offset = offset.new; table = table.new } ≡ run_image image.now budget table.old }
{
    let report = run::run(image, table, budget);
    *ticks = report.ticks;
    *instructions = report.instructions;
    *offset = report.offset;
    report.outcome.number()
}

// 0 is given back, or the number of what was wrong.
#[unsafe(no_mangle)]
pub extern "C" fn moffatrell_fill(image: &[u8], table: &mut [i32]) -> u32
    ensures { record { answer = result; table = table.new } ≡ fill_image image.now table.old }
{
    let answer = run::fill(image, table);
    rules::fill_number(answer)
}
