// The answers of the toolchain and its published limits. specs/ has the rules; specs/Answers says what each answer stands for there.
#![tactic(auto)]

mod compiling;
mod filling;
mod kinds;
mod limits;
mod running;

pub use compiling::{Compiled, Fault, Refusal, Stated};
pub use filling::{FillError, fill_number};
pub use kinds::{Kind, Type, UnknownKind};
pub use limits::Limits;
pub use running::{Evaluated, Outcome, Report};
