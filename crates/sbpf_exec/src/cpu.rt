// Registers and saved frames.

ghost use Rattle.std.specs.Prelude.{◌≡◌, ◌+◌, ◌%◌, ◌^◌, ◌<◌, ◌≤◌, ◌↔◌, ◌∷◌, [], length, slice_set, slice_index, IsTrue, MatchOption};
ghost use Rattle.sbpf_exec.specs.Frames.{frame};
ghost use Rattle.sbpf_exec.specs.Steps.{state};
ghost use Rattle.sbpf_insn.specs.Machine.{Regions, start};

use std::marker::Model;

/// What a local call saves: r6 to r9, and the slot to return to.
#[derive(Clone, Copy)]
pub struct Saved {
    pub r6: u64,
    pub r7: u64,
    pub r8: u64,
    pub r9: u64,
    pub slot: u32,
}

/// The saved frames, at most seven, seen with the last one first.
#[derive(Drop)]
pub struct Frames {
    saved: [Saved; 7],
    depth: usize,
}

impl Model for Frames {
    ghost use Rattle.std.specs.Prelude.{List, ◌≡◌, ◌≤◌, length, take, map, reverse};
    ghost use Rattle.sbpf_insn.specs.Machine.{Frame};

    ghost Value = { List Frame };

    ghost use Rattle.sbpf_exec.specs.Frames.{frame};

    ghost view = { λ f. map frame (reverse (take f.depth f.saved)) };

    ghost invariant = { λ f. (f.depth ≤ 7) × (length f.saved ≡ 7) };
}

impl Frames {
    #[inline]
    pub fn is_full(&self) -> bool
        ensures { IsTrue result ↔ (7 ≤ length self.now) }
    {
        self.depth == 7
    }

    #[inline]
    pub fn push(&mut self, saved: Saved)
        requires { length self.old < 7 }
        ensures { self.new ≡ frame saved ∷ self.old }
    {
        self.saved[self.depth] = saved;
        self.depth += 1;
    }

    #[inline]
    pub fn pop(&mut self) -> Option<Saved>
        ensures { MatchOption result ((self.old ≡ []) × (self.new ≡ [])) (λ saved. self.old ≡ frame saved ∷ self.new) }
    {
        if self.depth == 0 {
            return None;
        }
        self.depth -= 1;
        Some(self.saved[self.depth])
    }
}

/// The registers r0 to r10 and the saved frames.
#[derive(Drop)]
pub struct Cpu {
    pub registers: [u64; 11],
    pub frames: Frames,
}

impl Cpu {
    /// As at the start of a run: r1 is the context's address and r10 the end of the first frame.
    pub fn start() -> Cpu
        ensures { (r : Regions) → state result 0 r ≡ start r }
    {
        let mut registers = [0; 11];
        registers[1] = 0x1_0000_0000;
        registers[10] = 0x5_0000_0200;
        let none = Saved {
            r6: 0,
            r7: 0,
            r8: 0,
            r9: 0,
            slot: 0,
        };
        Cpu {
            registers,
            frames: Frames {
                saved: [none; 7],
                depth: 0,
            },
        }
    }
}
