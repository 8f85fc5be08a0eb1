// An image is run on a table with a budget of ticks; a table is filled with an image's initial values.
#![tactic(auto)]

ghost use Rattle.std.specs.Prelude.{◌≡◌, ◌≤◌, length};
ghost use Rattle.rules.specs.Answers.{outcome_number, reported, filled};
ghost use Rattle.rules.specs.Limits.{code_limit, stack_limit};
ghost use Rattle.rules.specs.Machine.{code_in};
ghost use Rattle.rules.specs.Run.{number, valid, run_image, fill_image};
ghost use Rattle.variables.specs.Slots.{types_in, values_in};
ghost use Rattle.run.specs.Standing.{end_of, last_count, carried_out, Refused};

use machine::{Machine, Stop};
use rules::{FillError, Outcome, Report};

// The outcome that a stop is. Both types are of crates below, so this is no impl of From.
#[tactic(auto, unfolding(rules::specs::Run::number))]
fn outcome_of(stop: Stop) -> Outcome
    ensures { outcome_number result ≡ number (end_of stop) }
{
    match stop {
        Stop::Done => Outcome::Done,
        Stop::Spent => Outcome::Spent,
        Stop::Range => Outcome::Range,
        Stop::Divide => Outcome::Divide,
        Stop::Broken => Outcome::BadCode,
    }
}

// The instructions that the last step completed: HALT counts, an instruction that stops the run does not.
fn last_counts(stop: Stop) -> u64
    ensures { result ≡ last_count stop }
{
    u64::from(stop == Stop::Done)
}

// The code is carried out from its start, until an instruction ends the run.
fn carry_out(code: &[u8], vars: &[u8], table: &mut [i32], budget: u32) -> Report
    requires { length code.now ≤ code_limit }
    ensures { reported result table.new ≡ carried_out (code_in (types_in vars.now) code.now stack_limit) budget table.old }
{
    let mut m = Machine::new();
    let mut count: u64 = 0;
    loop {
        match m.step(code, vars, table, budget) {
            Ok(next) => {
                m = next;
                count += 1;
            }
            Err(stop) => {
                return Report {
                    outcome: outcome_of(stop),
                    ticks: m.ticks,
                    instructions: count + last_counts(stop),
                    offset: m.at,
                };
            }
        }
    }
}

// Whether a run may take the table: one entry for each variable, and each in its type's range.
fn is_valid(vars: &[u8], table: &[i32]) -> bool
    ensures { result ≡ valid (types_in vars.now) table.now }
{
    if table.len() != variables::count(vars) {
        return false;
    }
    for (k, v) in table.iter().enumerate() {
        if !variables::may_hold(vars, k, *v) {
            return false;
        }
    }
    true
}

#[tactic(auto, unfolding(rules::specs::Run::refused_run))]
fn refuse(outcome: Outcome) -> Report
    ensures { Refused outcome result }
{
    Report {
        outcome,
        ticks: 0,
        instructions: 0,
        offset: 0,
    }
}

// An image is run on a table. 23 and 24 leave the table alone; a stop partway leaves what was stored until then.
pub fn run(image: &[u8], table: &mut [i32], budget: u32) -> Report
    ensures { reported result table.new ≡ run_image image.now budget table.old }
{
    if !image::is_image(image) {
        return refuse(Outcome::BadImage);
    }
    let vars = image::variables(image);
    if !is_valid(vars, table) {
        return refuse(Outcome::BadTable);
    }
    carry_out(image::code(image), vars, table, budget)
}

// Each entry becomes its variable's initial value.
fn put_initials(vars: &[u8], table: &mut [i32])
    requires { length table.old ≡ length (values_in vars.now) }
    ensures { table.new ≡ values_in vars.now }
{
    for k in 0..table.len() {
        table[k] = variables::initial(vars, k);
    }
}

// A table is filled with an image's initial values. 23, or 24 for the length, changes no entry.
pub fn fill(image: &[u8], table: &mut [i32]) -> Result<(), FillError>
    ensures { filled result table.new ≡ fill_image image.now table.old }
{
    if !image::is_image(image) {
        return Err(FillError::BadImage);
    }
    let vars = image::variables(image);
    if table.len() != variables::count(vars) {
        return Err(FillError::BadTable);
    }
    put_initials(vars, table);
    Ok(())
}
