// A whole run.
ghost use Rattle.std.specs.Prelude.{◌≡◌, ◌-◌, ◌≤◌};
ghost use Rattle.sbpf_insn.specs.Machine as machine;
ghost use Rattle.sbpf_exec.specs.Steps.{state};
ghost use Rattle.sbpf_exec.specs.Parts.{machine_regions, IsShaped, WritesWithin};
ghost use Rattle.sbpf_insn.specs.Accepted.{IsAccepted};
ghost use Rattle.sbpf_exec.specs.Inside.{StaysInside};
ghost use Rattle.sbpf_exec.specs.FlatCells.{Mirrors};
ghost use Rattle.sbpf_exec.specs.Outcomes.{outcome_of, UsesAtMost};

use crate::cells::{CELLS, Cell, FEW_CELLS};
use crate::cpu::Cpu;
use crate::flatten::flatten;
use crate::quick::quick_run;
use crate::regions::Regions;
use crate::step::{Ending, step_once};
use sbpf_insn::Code;

/// A trap: an access that isn't wholly in one region that allows it, or a local call that would need
/// a ninth frame.
#[derive(Clone, Copy, Debug, PartialEq, Eq)]
pub enum TrapKind {
    Access { address: u64, size: u32 },
    Depth,
}

/// How a run ended, and how much fuel it used.
#[derive(Clone, Copy, Debug, PartialEq, Eq)]
pub enum Outcome {
    /// EXIT in the first frame, with r0.
    Done {
        r0: u64,
        used: u64,
    },
    /// A trap of the instruction at a slot, which has used its unit.
    Trap {
        kind: TrapKind,
        slot: u32,
        used: u64,
    },
    /// The fuel was spent before the end.
    Spent,
}

/// Runs the code from its first slot over regions that were shaped, for at most `fuel` instructions.
///
/// It is the run that the machine's definitions describe, on the joined bytes of the regions. Pages
/// are read and written where they lie, and no memory is taken but the stack's, for a table of 4,097 cells.
/// Input, parameter and context stay as they are; of the output's buffer only bytes within the output's
/// length may differ.
///
/// Code that is accepted stays inside its slots: it ends by EXIT in the first frame, by a trap, or for
/// want of fuel. Other code may also end with r0 by leaving them.
pub fn run(code: &Code, regions: &mut Regions, fuel: u64) -> Outcome
    requires { IsShaped regions.old }
    ensures outcome { machine.run code.now.insns (machine_regions regions.old) fuel ≡ outcome_of result (machine_regions regions.new).output }
    ensures fuel { UsesAtMost fuel result }
    ensures inside { IsAccepted code.now.insns → StaysInside fuel code.now.insns (machine.start (machine_regions regions.old)) }
    ensures within { WritesWithin regions.old regions.new }
    ensures shaped { IsShaped regions.new }
{
    if (code.slots() as usize) < FEW_CELLS {
        let mut cells = [Cell::Other; FEW_CELLS];
        flatten(code, &mut cells);
        return run_over(code, &cells, regions, fuel);
    }
    let mut cells = [Cell::Other; CELLS];
    flatten(code, &mut cells);
    run_over(code, &cells, regions, fuel)
}

// The run over a table of the code's cells.
#[inline(never)]
fn run_over(code: &Code, cells: &[Cell], regions: &mut Regions, fuel: u64) -> Outcome
    requires mirrors { Mirrors cells.now code.now.insns }
    requires shaped { IsShaped regions.old }
    ensures outcome { machine.run code.now.insns (machine_regions regions.old) fuel ≡ outcome_of result (machine_regions regions.new).output }
    ensures fuel { UsesAtMost fuel result }
    ensures inside { IsAccepted code.now.insns → StaysInside fuel code.now.insns (machine.start (machine_regions regions.old)) }
    ensures within { WritesWithin regions.old regions.new }
    ensures shaped { IsShaped regions.new }
{
    let mut cpu = Cpu::start();
    let mut slot = 0;
    let mut left = fuel;
    while left > 0 {
        let reached = quick_run(code, cells, &mut cpu, regions, slot, left);
        slot = reached.slot;
        left -= reached.steps;
        left -= 1;
        let used = fuel - left;
        match step_once(code, &mut cpu, regions, slot) {
            Ending::Goes(next) => slot = next,
            Ending::Done(r0) => return Outcome::Done { r0, used },
            Ending::Access { address, size } => {
                let kind = TrapKind::Access { address, size };
                return Outcome::Trap { kind, slot, used };
            }
            Ending::Depth => {
                let kind = TrapKind::Depth;
                return Outcome::Trap { kind, slot, used };
            }
        }
    }
    Outcome::Spent
}
