// The code of statements, appended; targets are computed from sizes, and nothing is changed afterwards.
ghost use Rattle.std.specs.Prelude.{◌≡◌};
ghost use Rattle.rules.specs.KindNumbers.{kind_number};
ghost use Rattle.emit.specs.Places.{Emits, StatementCode, ListCode, BranchesCode, GroupsCode};
ghost use Rattle.emit.specs.Compounds.{ForCode, WhileCode, RepeatCode, CompoundCode};

use super::codes::{Code, Op, Turn};
use super::sizes::{self, Size};
use cells::Reader;
use rules::Kind;

// What a statement's code needs to know of what is around: where EXIT leads, the enclosing FORs, and how many levels of nesting may still come.
#[derive(Clone, Copy)]
pub(crate) struct Around {
    pub exit: u32,
    pub fors: u32,
    pub levels: u32,
}

impl Code<'_> {
    // IF's branches: JZ past each list, and JUMP to the end behind every list that another branch or ELSE follows.
    #[cycle(branches_compound_for_loop_groups_list_repeat_loop_statement_while_loop)]
    fn branches(&mut self, from: &mut Reader, end: u32, around: Around)
        ensures same { self.new.bytes.ghost_name ≡ self.old.bytes.ghost_name }
        ensures writes { Emits (BranchesCode end around) from.old self.old from.new self.new }
    {
        while let Some(_) = from.next_if(Kind::Then) {
            self.held(from);
            let mut further = *from;
            let size = sizes::list(&mut further, around.levels);
            let leap = sizes::jump_size(&further);
            let other = self.ahead(Size(3) + size + leap);
            self.jump(Op::JumpZero, other);
            self.list(from, around);
            if leap.0 == 3 {
                self.jump(Op::Jump, end);
            }
        }
        if from.read().is(Kind::Else) {
            self.list(from, around);
        }
    }

    // CASE's groups: the tests of a group, a jump past its list, the list, and a jump to the end; then ELSE's list.
    #[cycle(branches_compound_for_loop_groups_list_repeat_loop_statement_while_loop)]
    fn groups(&mut self, from: &mut Reader, end: u32, around: Around)
        ensures same { self.new.bytes.ghost_name ≡ self.old.bytes.ghost_name }
        ensures writes { Emits (GroupsCode end around) from.old self.old from.new self.new }
    {
        while from.cell().is_label() {
            let tests = sizes::labels_ahead(*from);
            let body = self.ahead(tests + Size(3));
            self.labels(from, body);
            let size = sizes::list_ahead(*from, around.levels);
            let other = self.ahead(size + Size(7));
            self.jump(Op::Jump, other);
            self.alone(Op::Drop);
            self.list(from, around);
            self.jump(Op::Jump, end);
        }
        self.alone(Op::Drop);
        self.list(from, around);
    }

    // FOR: the bounds, the held final value, the first test; at each pass a tick, the list, and the step.
    #[cycle(branches_compound_for_loop_groups_list_repeat_loop_statement_while_loop)]
    fn for_loop(&mut self, from: &mut Reader, slot: u32, around: Around)
        ensures same { self.new.bytes.ghost_name ≡ self.old.bytes.ghost_name }
        ensures writes { Emits (ForCode slot around) from.old self.old from.new self.new }
    {
        self.held(from);
        self.held(from);
        let by = from.read();
        let turn = Turn {
            level: around.fors,
            slot,
            step: by.datum,
        };
        let size = sizes::list_ahead(*from, around.levels);
        let top = self.ahead(Size(13));
        let end = self.ahead(size + Size(23));
        self.with_slot(Op::Hold, around.fors);
        self.with_slot(Op::Store, slot);
        self.turn(Op::First, turn, end);
        self.alone(Op::Tick);
        let inner = Around {
            exit: end,
            fors: around.fors.saturating_add(1),
            ..around
        };
        self.list(from, inner);
        self.turn(Op::Next, turn, top);
    }

    // WHILE: the condition, JZ past the list, the list, and back to the start.
    #[cycle(branches_compound_for_loop_groups_list_repeat_loop_statement_while_loop)]
    fn while_loop(&mut self, from: &mut Reader, start: u32, around: Around)
        ensures same { self.new.bytes.ghost_name ≡ self.old.bytes.ghost_name }
        ensures writes { Emits (WhileCode start around) from.old self.old from.new self.new }
    {
        self.held(from);
        let size = sizes::list_ahead(*from, around.levels);
        let exit = self.ahead(size + Size(6));
        self.jump(Op::JumpZero, exit);
        self.list(from, Around { exit, ..around });
        self.jump(Op::Jump, start);
    }

    // REPEAT: the list, the condition, and back to the start while it is FALSE.
    #[cycle(branches_compound_for_loop_groups_list_repeat_loop_statement_while_loop)]
    fn repeat_loop(&mut self, from: &mut Reader, start: u32, around: Around)
        ensures same { self.new.bytes.ghost_name ≡ self.old.bytes.ghost_name }
        ensures writes { Emits (RepeatCode start around) from.old self.old from.new self.new }
    {
        let mut further = *from;
        let size = sizes::list(&mut further, around.levels);
        let test = sizes::held(&mut further);
        let exit = self.ahead(size + test + Size(3));
        self.list(from, Around { exit, ..around });
        self.held(from);
        self.jump(Op::JumpZero, start);
    }

    // IF, CASE and loops behind their first cell and their tick; the statement's code starts at `start`, and `slot` is a FOR's variable.
    #[cycle(branches_compound_for_loop_groups_list_repeat_loop_statement_while_loop)]
    fn compound(&mut self, from: &mut Reader, kind: Kind, slot: u32, start: u32, around: Around)
        ensures same { self.new.bytes.ghost_name ≡ self.old.bytes.ghost_name }
        ensures writes { Emits (CompoundCode (record { tag = kind_number kind; place = 0; datum = slot }) start around) from.old self.old from.new self.new }
    {
        match kind {
            Kind::If => {
                let size = sizes::branches_ahead(*from, around.levels);
                let end = self.ahead(size);
                self.branches(from, end, around)
            }
            Kind::Case => {
                self.held(from);
                let size = sizes::groups_ahead(*from, around.levels);
                let end = self.ahead(size);
                self.groups(from, end, around)
            }
            Kind::For => self.for_loop(from, slot, around),
            Kind::While => self.while_loop(from, start, around),
            // REPEAT: no other kind is left.
            _ => self.repeat_loop(from, start, around),
        }
    }

    // A statement: a tick, then what it does. One level of nesting fewer is left within a compound one.
    #[cycle(branches_compound_for_loop_groups_list_repeat_loop_statement_while_loop)]
    fn statement(&mut self, from: &mut Reader, around: Around)
        ensures same { self.new.bytes.ghost_name ≡ self.old.bytes.ghost_name }
        ensures writes { Emits (StatementCode around) from.old self.old from.new self.new }
    {
        let start = self.at;
        let head = from.read();
        self.alone(Op::Tick);
        let Ok(kind) = head.kind() else {
            return;
        };
        match kind {
            Kind::Assign => {
                self.held(from);
                self.with_slot(Op::Store, head.datum)
            }
            Kind::Exit => self.jump(Op::Jump, around.exit),
            _ => if 0 < around.levels {
                let inner = Around {
                    levels: around.levels - 1,
                    ..around
                };
                self.compound(from, kind, head.datum, start, inner)
            },
        }
    }

    #[cycle(branches_compound_for_loop_groups_list_repeat_loop_statement_while_loop)]
    pub fn list(&mut self, from: &mut Reader, around: Around)
        ensures same { self.new.bytes.ghost_name ≡ self.old.bytes.ghost_name }
        ensures writes { Emits (ListCode around) from.old self.old from.new self.new }
    {
        while from.next_if(Kind::Finish).is_none() {
            self.statement(from, around);
        }
    }
}
