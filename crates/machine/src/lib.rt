// The machine by value: its stack and held final values are its own, and each instruction gives the next machine, or why the run ends.
#![tactic(auto)]

ghost use Rattle.std.specs.Prelude.{◌||◌, ◌≡◌, ◌+◌, ◌-◌, ◌≤◌, ◌<◌, ltb, drop};
ghost use Rattle.rules.specs.Codes.{CONST, LOAD, UN, BIN, JUMP, SPAN, DROP, HOLD, FIRST, NEXT, decode};
ghost use Rattle.rules.specs.Limits.{stack_limit, for_limit};
ghost use Rattle.rules.specs.Machine.{is_tick, code_in};
ghost use Rattle.rules.specs.Numbers.{is_zero};
ghost use Rattle.codes.specs.Table.{un_of, bin_of};
ghost use Rattle.variables.specs.Slots.{types_in};
ghost use Rattle.machine.specs.Stepping.{view, move, only, holding, pushed, popped, ahead, stepped, stop_for, Does, DoesIn, DoesOn, Ticks, Stores, Turns, Puts, Jumps, Shows, Counts, branch_of, taken, may_count, fresh, Ready};

use arith::Trap;
use codes::{Instruction, Loop, Operator, Prefix};
use rules::Limits;

// That the height is within the limit is no invariant of the type, and the stack no vector of that capacity: `step` answers for any height.
// Its arrays are read and written in copies of their own: an index at run time into the whole machine would copy all of it.
// A number stands before each array, so that in a step's answer, too, each is copied alone and lies even.
#[derive(Clone, Copy)]
pub struct Machine {
    pub height: usize,
    pub stack: [i32; Machine::STACK],
    pub at: usize,
    pub held: [i32; Machine::HELD],
    pub ticks: u32,
}

// Why a run ends.
#[derive(Clone, Copy, PartialEq, Eq)]
pub enum Stop {
    Done,
    Spent,
    Range,
    Divide,
    Broken,
}

impl From<Trap> for Stop {
    ghost from_gives = { λ t s. s ≡ stop_for t };

    fn from(trap: Trap) -> Stop {
        match trap {
            Trap::Range => Stop::Range,
            Trap::Divide => Stop::Divide,
            Trap::Bad => Stop::Broken,
        }
    }
}

impl Machine {
    pub const STACK: usize = Limits::STACK;

    pub const HELD: usize = Limits::HELD_FINALS;

    // At the start the stack is empty, and the held final values are 0.
    pub fn new() -> Self
        ensures { (view result ≡ fresh) × (result.height ≡ 0) }
    {
        Machine {
            height: 0,
            stack: [0; Machine::STACK],
            at: 0,
            held: [0; Machine::HELD],
            ticks: 0,
        }
    }

    fn push(self, v: i32) -> Self
        requires { self.height < stack_limit }
        ensures view { view result ≡ pushed v (view self) }
        ensures height { result.height ≡ self.height + 1 }
    {
        let mut stack = self.stack;
        stack[self.height] = v;
        let height = self.height + 1;
        Machine {
            stack,
            height,
            ..self
        }
    }

    fn pop(self) -> Self
        requires { 0 < self.height }
        ensures view { view result ≡ popped (view self) }
        ensures height { result.height ≡ self.height - 1 }
    {
        let height = self.height - 1;
        Machine { height, ..self }
    }

    // The value that lies so many below the top.
    fn operand(&self, depth: usize) -> Result<i32, Stop>
        requires { self.now.height ≤ stack_limit }
        ensures { Shows result depth self.now }
    {
        if self.height <= depth {
            return Err(Stop::Broken);
        }
        let stack = self.stack;
        Ok(stack[self.height - 1 - depth])
    }

    fn hold(self, level: usize, v: i32) -> Self
        requires { level < for_limit }
        ensures view { view result ≡ holding level v (view self) }
    {
        let mut held = self.held;
        held[level] = v;
        Machine { held, ..self }
    }

    // n bytes on.
    fn advance(self, n: usize) -> Self
        requires { self.at + n < 18446744073709551616 }
        ensures view { view result ≡ ahead n (view self) }
        ensures height { result.height ≡ self.height }
    {
        let at = self.at + n;
        Machine { at, ..self }
    }

    fn tick(self, budget: u32) -> Result<Self, Stop>
        requires { Ready 1 self }
        ensures { Ticks budget result self }
    {
        if budget <= self.ticks {
            return Err(Stop::Spent);
        }
        let ticks = self.ticks + 1;
        Ok(Machine { ticks, ..self }.advance(1))
    }

    // A value is pushed, if there is room.
    fn put(self, n: usize, v: i32) -> Result<Self, Stop>
        requires { Ready n self }
        ensures { Puts result n v self }
    {
        if Machine::STACK <= self.height {
            return Err(Stop::Broken);
        }
        Ok(self.push(v).advance(n))
    }

    // No call of `put`: its answer would be copied into this one.
    fn load(self, table: &[i32], slot: usize) -> Result<Self, Stop>
        requires { Ready 2 self }
        ensures { DoesOn table.now result (LOAD slot) self }
    {
        if table.len() <= slot || Machine::STACK <= self.height {
            return Err(Stop::Broken);
        }
        Ok(self.push(table[slot]).advance(2))
    }

    fn store(self, vars: &[u8], table: &mut [i32], slot: usize) -> Result<Self, Stop>
        requires { Ready 2 self }
        ensures { Stores vars.now table.old table.new result slot self }
    {
        let v = self.operand(0)?;
        if table.len() <= slot {
            return Err(Stop::Broken);
        }
        if !variables::may_hold(vars, slot, v) {
            return Err(Stop::Broken);
        }
        table[slot] = v;
        Ok(self.pop().advance(2))
    }

    fn unary(self, o: Prefix) -> Result<Self, Stop>
        requires { Ready 1 self }
        ensures { Does result (UN (un_of o)) self }
    {
        let x = self.operand(0)?;
        let v = operators::apply_prefix(o, x)?;
        Ok(self.pop().push(v).advance(1))
    }

    fn binary(self, o: Operator) -> Result<Self, Stop>
        requires { Ready 1 self }
        ensures { Does result (BIN (bin_of o)) self }
    {
        let left = self.operand(1)?;
        let right = self.operand(0)?;
        let v = operators::apply(o, left, right)?;
        Ok(self.pop().pop().push(v).advance(1))
    }

    // To `target`, if a jump may land there.
    fn jump(self, code: &[u8], target: usize) -> Result<Self, Stop>
        ensures { Jumps code.now result target self }
    {
        if !may_jump(self.at, code, target) {
            return Err(Stop::Broken);
        }
        Ok(Machine { at: target, ..self })
    }

    // A jump if the top is zero, or if it is not.
    fn branch(self, code: &[u8], target: usize, zero: bool) -> Result<Self, Stop>
        requires { Ready 3 self }
        ensures { DoesIn code.now result (branch_of zero target) self }
    {
        let v = self.operand(0)?;
        if !is_taken(zero, v) {
            return Ok(self.pop().advance(3));
        }
        let landed = self.jump(code, target)?;
        Ok(landed.pop())
    }

    fn span(self, lowest: i32, highest: i32) -> Result<Self, Stop>
        requires { Ready 9 self }
        ensures { Does result (SPAN lowest highest) self }
    {
        let v = self.operand(0)?;
        self.put(9, operators::flag(compare::within(lowest, highest, v)))
    }

    fn discard(self) -> Result<Self, Stop>
        requires { Ready 1 self }
        ensures { Does result DROP self }
    {
        self.operand(0)?;
        Ok(self.pop().advance(1))
    }

    fn keep(self, level: usize) -> Result<Self, Stop>
        requires { Ready 2 self }
        ensures { Does result (HOLD level) self }
    {
        let v = self.operand(0)?;
        if Machine::HELD <= level {
            return Err(Stop::Broken);
        }
        Ok(self.pop().hold(level, v).advance(2))
    }

    // The variable of FIRST and NEXT, and the final value that it counts to.
    #[tactic(auto, using(crate::proofs::Counting::allowed))]
    fn counted(&self, l: Loop, vars: &[u8], table: &[i32]) -> Result<(i32, i32), Stop>
        ensures { Counts vars.now table.now result l self.now }
    {
        if !may_count(l, vars, table) {
            return Err(Stop::Broken);
        }
        let held = self.held;
        Ok((table[l.slot], held[l.level]))
    }

    fn first(self, l: Loop, code: &[u8], vars: &[u8], table: &[i32]) -> Result<Self, Stop>
        requires { Ready 9 self }
        ensures { Turns vars.now code.now table.now table.now result (FIRST l.level l.slot l.step l.to) self }
    {
        let (v, last) = self.counted(l, vars, table)?;
        if compare::passes(v, l.step, last) {
            return self.jump(code, l.to);
        }
        Ok(self.advance(9))
    }

    fn next(self, l: Loop, code: &[u8], vars: &[u8], table: &mut [i32]) -> Result<Self, Stop>
        requires { Ready 9 self }
        ensures { Turns vars.now code.now table.old table.new result (NEXT l.level l.slot l.step l.to) self }
    {
        let (v, last) = self.counted(l, vars, table)?;
        let Some(next) = compare::advanced(v, l.step, last) else {
            return Ok(self.advance(9));
        };
        let landed = self.jump(code, l.to)?;
        table[l.slot] = next;
        Ok(landed)
    }

    // What stands at the machine's offset is carried out. Where the run ends the machine is the one before.
    // The arms stand here, as a function between would copy the machine once more.
    pub fn step(
        self,
        code: &[u8],
        vars: &[u8],
        table: &mut [i32],
        budget: u32,
    ) -> Result<Self, Stop>
        ensures { only table.new (move self result) ≡ stepped (code_in (types_in vars.now) code.now stack_limit) budget self table.old }
    {
        if Machine::STACK < self.height {
            return Err(Stop::Broken);
        }
        let Some(i) = codes::decode(code, self.at) else {
            return Err(Stop::Broken);
        };
        match i {
            Instruction::Tick => self.tick(budget),
            Instruction::Const(v) => self.put(5, v),
            Instruction::Load(slot) => self.load(table, slot),
            Instruction::Store(slot) => self.store(vars, table, slot),
            Instruction::Unary(o) => self.unary(o),
            Instruction::Binary(o) => self.binary(o),
            Instruction::Jump(target) => self.jump(code, target),
            Instruction::JumpZero(target) => self.branch(code, target, true),
            Instruction::JumpNot(target) => self.branch(code, target, false),
            Instruction::Span(lowest, highest) => self.span(lowest, highest),
            Instruction::Drop => self.discard(),
            Instruction::Hold(level) => self.keep(level),
            Instruction::First(l) => self.first(l, code, vars, table),
            Instruction::Next(l) => self.next(l, code, vars, table),
            Instruction::Halt => Err(Stop::Done),
        }
    }
}

// Whether a TICK stands there.
#[tactic(auto, using(crate::proofs::Ticks::tick_there, crate::proofs::Ticks::none_there))]
fn is_tick(code: &[u8], target: usize) -> bool
    ensures { result ≡ is_tick (decode (drop target code.now)) }
{
    target < code.len() && code[target] == 1
}

// Whether a jump may land there: further on, or on a TICK.
fn may_jump(at: usize, code: &[u8], target: usize) -> bool
    ensures { result ≡ (ltb at target || is_tick (decode (drop target code.now))) }
{
    at < target || is_tick(code, target)
}

// Whether FIRST and NEXT may count: the level and the slot are there, the variable is a DINT, and the step is not 0.
#[tactic(auto, using(std::proofs::lemmas::Int::ints), unfolding(crate::specs::Stepping::may_count))]
fn may_count(l: Loop, vars: &[u8], table: &[i32]) -> bool
    ensures { result ≡ may_count (types_in vars.now) table.now l.level l.slot l.step }
{
    if Machine::HELD <= l.level {
        return false;
    }
    if table.len() <= l.slot {
        return false;
    }
    variables::is_dint(vars, l.slot) && !compare::is_zero(l.step)
}

// Whether a branch is taken at this value.
fn is_taken(zero: bool, v: i32) -> bool
    ensures { result ≡ taken zero (is_zero v) }
{
    compare::is_zero(v) == zero
}
