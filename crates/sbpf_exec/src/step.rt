// One step: what each instruction does.
ghost use Rattle.std.specs.Prelude.{◌≡◌, ◌+◌, ◌%◌, ◌^◌, ◌≤◌, slice_set, slice_index, IsTrue, Some};
ghost use Rattle.sbpf_insn.specs.Table.{is_well_formed, is_src};
ghost use Rattle.sbpf_insn.specs.Arithmetic.{extended, atomic_of};
ghost use Rattle.sbpf_insn.specs.Machine as machine;
ghost use Rattle.sbpf_insn.specs.Machine.{step, act, operand, address, target, after_slot, jumped, alu_of, neg_of, holds, load_step, store_step, atomic_step, atomic_size, fetched_into, with_fetched, call, leave, size_width};
ghost use Rattle.sbpf_exec.specs.Steps.{state, next_of, OnEnd};
ghost use Rattle.sbpf_exec.specs.Parts.{machine_regions, IsShaped, WritesWithin};
ghost use Rattle.sbpf_insn.specs.declared.insn.Insn.TheVariants as insn;

use crate::cpu::{Cpu, Saved};
use crate::number::size_len;
use crate::regions::Regions;
use sbpf_alu::{alu32, alu64, atomic32, atomic64, compare32, compare64, movsx, swap};
use sbpf_insn::{AluOp, AtomicOp, Code, Cond, Insn, Reg, Size, Src};

/// What a step came to: the slot to go on at, the end with r0, or a trap.
#[derive(Clone, Copy)]
pub enum Ending {
    Goes(u32),
    Done(u64),
    Access { address: u64, size: u32 },
    Depth,
}

#[inline]
pub(crate) fn get(cpu: &Cpu, r: Reg) -> u64
    requires { r.n ≤ 10 }
    ensures { result ≡ slice_index cpu.now.registers r.n }
{
    cpu.registers[r.n as usize]
}

#[inline]
pub(crate) fn set(cpu: &mut Cpu, r: Reg, value: u64)
    requires { r.n ≤ 10 }
    ensures { cpu.new ≡ record cpu.old { registers = slice_set cpu.old.registers r.n value } }
{
    cpu.registers[r.n as usize] = value;
}

#[inline]
pub(crate) fn next(slot: u32, n: u32) -> u32
    ensures { result ≡ after_slot slot n }
{
    slot.wrapping_add(n)
}

#[inline]
pub(crate) fn operand_of(cpu: &Cpu, src: Src) -> u64
    requires { IsTrue (is_src src) }
    ensures { result ≡ operand cpu.now.registers src }
{
    match src {
        Src::Imm(k) => (k as i64).cast_unsigned(),
        Src::Reg(r) => get(cpu, r),
    }
}

#[inline]
pub(crate) fn address_of(cpu: &Cpu, base: Reg, offset: i16) -> u64
    requires { base.n ≤ 10 }
    ensures { result ≡ address cpu.now.registers base offset }
{
    get(cpu, base).wrapping_add((offset as i64).cast_unsigned())
}

#[inline]
pub(crate) fn jump_to(slot: u32, offset: i32) -> u32
    ensures { result ≡ target slot offset }
{
    slot.wrapping_add(1).wrapping_add(offset.cast_unsigned())
}

#[inline]
pub(crate) fn slot_after(taken: bool, slot: u32, offset: i32) -> u32
    ensures { result ≡ jumped taken slot offset }
{
    if taken {
        jump_to(slot, offset)
    } else {
        slot.wrapping_add(1)
    }
}

#[inline]
pub(crate) fn computes(wide: bool, op: AluOp, a: u64, b: u64) -> u64
    ensures { result ≡ alu_of wide op a b }
{
    if wide {
        alu64(op, a, b)
    } else {
        alu32(op, a, b)
    }
}

#[inline]
pub(crate) fn is_met(wide: bool, cond: Cond, a: u64, b: u64) -> bool
    ensures { result ≡ holds wide cond a b }
{
    if wide {
        compare64(cond, a, b)
    } else {
        compare32(cond, a, b)
    }
}

#[inline]
fn alu_step(cpu: &mut Cpu, slot: u32, wide: bool, op: AluOp, dst: Reg, src: Src) -> Ending
    requires dst { dst.n ≤ 10 }
    requires src { IsTrue (is_src src) }
    ensures { (m : machine.Regions) → act (insn.Alu wide op dst src) (state cpu.old slot m) ≡ next_of result cpu.new m }
{
    let b = operand_of(cpu, src);
    let value = computes(wide, op, get(cpu, dst), b);
    set(cpu, dst, value);
    Ending::Goes(next(slot, 1))
}

#[inline]
fn jump_step(
    cpu: &Cpu,
    slot: u32,
    wide: bool,
    cond: Cond,
    dst: Reg,
    src: Src,
    offset: i16,
) -> Ending
    requires dst { dst.n ≤ 10 }
    requires src { IsTrue (is_src src) }
    ensures { (m : machine.Regions) → act (insn.Jump wide cond dst src offset) (state cpu.now slot m) ≡ next_of result cpu.now m }
{
    let b = operand_of(cpu, src);
    let a = get(cpu, dst);
    Ending::Goes(slot_after(is_met(wide, cond, a, b), slot, offset as i32))
}

#[inline]
pub(crate) fn negated(wide: bool, value: u64) -> u64
    ensures { result ≡ neg_of wide value }
{
    if wide {
        alu64(AluOp::Sub, 0, value)
    } else {
        alu32(AluOp::Sub, 0, value)
    }
}

#[inline]
fn neg_step(cpu: &mut Cpu, slot: u32, wide: bool, dst: Reg) -> Ending
    requires { dst.n ≤ 10 }
    ensures { (m : machine.Regions) → act (insn.Neg wide dst) (state cpu.old slot m) ≡ next_of result cpu.new m }
{
    let value = negated(wide, get(cpu, dst));
    set(cpu, dst, value);
    Ending::Goes(next(slot, 1))
}

#[inline]
fn access(address: u64, size: Size) -> Ending
    ensures { result ≡ Ending.Access address (machine.size_len size) }
{
    Ending::Access {
        address,
        size: size_len(size) as u32,
    }
}

// A number that was loaded goes into a register.
#[inline]
fn load_into(
    cpu: &mut Cpu,
    regions: &Regions,
    slot: u32,
    size: Size,
    dst: Reg,
    address: u64,
) -> Ending
    requires dst { dst.n ≤ 10 }
    requires shaped { IsShaped regions.now }
    ensures { load_step (state cpu.old slot (machine_regions regions.now)) size dst address (λ v. v) ≡ next_of result cpu.new (machine_regions regions.now) }
{
    match regions.load(cpu.registers[10], address, size) {
        None => access(address, size),
        Some(value) => {
            set(cpu, dst, value);
            Ending::Goes(next(slot, 1))
        }
    }
}

#[inline]
fn load_signed(
    cpu: &mut Cpu,
    regions: &Regions,
    slot: u32,
    size: Size,
    dst: Reg,
    address: u64,
) -> Ending
    requires dst { dst.n ≤ 10 }
    requires shaped { IsShaped regions.now }
    ensures { load_step (state cpu.old slot (machine_regions regions.now)) size dst address (extended (size_width size) 64) ≡ next_of result cpu.new (machine_regions regions.now) }
{
    match regions.load(cpu.registers[10], address, size) {
        None => access(address, size),
        Some(value) => {
            set(cpu, dst, extend(size, value));
            Ending::Goes(next(slot, 1))
        }
    }
}

#[inline]
pub(crate) fn extend(size: Size, value: u64) -> u64
    ensures { result ≡ extended (size_width size) 64 value }
{
    match size {
        Size::B => movsx(true, 8, value),
        Size::H => movsx(true, 16, value),
        Size::W => movsx(true, 32, value),
        Size::Dw => value,
    }
}

#[inline]
fn store_number(
    cpu: &Cpu,
    regions: &mut Regions,
    slot: u32,
    size: Size,
    address: u64,
    value: u64,
) -> Ending
    requires shaped { IsShaped regions.old }
    ensures next { store_step (state cpu.now slot (machine_regions regions.old)) size address value ≡ next_of result cpu.now (machine_regions regions.new) }
    ensures kept { OnEnd result (machine_regions regions.new ≡ machine_regions regions.old) }
    ensures within { WritesWithin regions.old regions.new }
    ensures shaped { IsShaped regions.new }
{
    if regions.store(cpu.registers[10], address, size, value) {
        Ending::Goes(next(slot, 1))
    } else {
        access(address, size)
    }
}

#[inline]
fn combined(wide: bool, op: AtomicOp, old: u64, src: u64, expected: u64) -> u64
    ensures { result ≡ atomic_of wide op old src expected }
{
    if wide {
        atomic64(op, old, src, expected)
    } else {
        atomic32(op, old, src, expected)
    }
}

#[inline]
fn size_of_atomic(wide: bool) -> Size
    ensures { result ≡ atomic_size wide }
{
    if wide { Size::Dw } else { Size::W }
}

// The old value goes into the source where it is fetched, and for compare-exchange into r0.
fn fetch_into(cpu: &mut Cpu, op: AtomicOp, fetch: bool, src: Reg, old: u64)
    requires { src.n ≤ 10 }
    ensures { cpu.new ≡ record cpu.old { registers = with_fetched cpu.old.registers (fetched_into op fetch src) old } }
{
    match op {
        AtomicOp::CmpXchg => cpu.registers[0] = old,
        _ => {
            if fetch {
                set(cpu, src, old);
            }
        }
    }
}

#[inline(never)]
fn atomic(
    cpu: &mut Cpu,
    regions: &mut Regions,
    slot: u32,
    wide: bool,
    op: AtomicOp,
    fetch: bool,
    address: u64,
    src: Reg,
) -> Ending
    requires src { src.n ≤ 10 }
    requires shaped { IsShaped regions.old }
    ensures next { atomic_step (state cpu.old slot (machine_regions regions.old)) (atomic_size wide) address (λ old. atomic_of wide op old (slice_index cpu.old.registers src.n) (slice_index cpu.old.registers 0)) (fetched_into op fetch src) ≡ next_of result cpu.new (machine_regions regions.new) }
    ensures kept { OnEnd result (machine_regions regions.new ≡ machine_regions regions.old) }
    ensures within { WritesWithin regions.old regions.new }
    ensures shaped { IsShaped regions.new }
{
    let size = size_of_atomic(wide);
    let top = cpu.registers[10];
    let Some(old) = regions.load_writable(top, address, size) else {
        return access(address, size);
    };
    let new = combined(wide, op, old, get(cpu, src), cpu.registers[0]);
    if regions.store(top, address, size, new) {
        fetch_into(cpu, op, fetch, src, old);
        Ending::Goes(next(slot, 1))
    } else {
        access(address, size)
    }
}

#[inline]
pub(crate) fn call_to(cpu: &mut Cpu, slot: u32, to: u32) -> Ending
    ensures kept { OnEnd result (cpu.new ≡ cpu.old) }
    ensures next { (m : machine.Regions) → call (state cpu.old slot m) to ≡ next_of result cpu.new m }
{
    if cpu.frames.is_full() {
        return Ending::Depth;
    }
    let saved = Saved {
        r6: cpu.registers[6],
        r7: cpu.registers[7],
        r8: cpu.registers[8],
        r9: cpu.registers[9],
        slot: next(slot, 1),
    };
    cpu.frames.push(saved);
    cpu.registers[10] = cpu.registers[10].wrapping_add(512);
    Ending::Goes(to)
}

#[inline]
pub(crate) fn leave_frame(cpu: &mut Cpu, slot: u32) -> Ending
    ensures kept { OnEnd result (cpu.new ≡ cpu.old) }
    ensures next { (m : machine.Regions) → leave (state cpu.old slot m) cpu.old.frames ≡ next_of result cpu.new m }
{
    let Some(saved) = cpu.frames.pop() else {
        return Ending::Done(cpu.registers[0]);
    };
    cpu.registers[6] = saved.r6;
    cpu.registers[7] = saved.r7;
    cpu.registers[8] = saved.r8;
    cpu.registers[9] = saved.r9;
    cpu.registers[10] = cpu.registers[10].wrapping_sub(512);
    Ending::Goes(saved.slot)
}

#[inline]
#[tactic(auto, using(crate::proofs::Confined::writes_nothing))]
fn act_on(cpu: &mut Cpu, regions: &mut Regions, slot: u32, insn: Insn) -> Ending
    requires formed { IsTrue (is_well_formed insn) }
    requires shaped { IsShaped regions.old }
    ensures next { act insn (state cpu.old slot (machine_regions regions.old)) ≡ next_of result cpu.new (machine_regions regions.new) }
    ensures kept { OnEnd result (machine_regions regions.new ≡ machine_regions regions.old) }
    ensures within { WritesWithin regions.old regions.new }
    ensures shaped { IsShaped regions.new }
{
    match insn {
        Insn::Alu { wide, op, dst, src } => alu_step(cpu, slot, wide, op, dst, src),
        Insn::Jump {
            wide,
            cond,
            dst,
            src,
            offset,
        } => jump_step(cpu, slot, wide, cond, dst, src, offset),
        Insn::MovSx {
            wide,
            bits,
            dst,
            src,
        } => {
            let value = movsx(wide, bits, get(cpu, src));
            set(cpu, dst, value);
            Ending::Goes(next(slot, 1))
        }
        Insn::Neg { wide, dst } => neg_step(cpu, slot, wide, dst),
        Insn::End { order, bits, dst } => {
            let value = swap(order, bits, get(cpu, dst));
            set(cpu, dst, value);
            Ending::Goes(next(slot, 1))
        }
        Insn::Ja { offset } => Ending::Goes(jump_to(slot, offset as i32)),
        Insn::JaFar { offset } => Ending::Goes(jump_to(slot, offset)),
        Insn::Call { offset } => {
            let to = jump_to(slot, offset);
            call_to(cpu, slot, to)
        }
        Insn::Exit => leave_frame(cpu, slot),
        Insn::Load {
            size,
            dst,
            base,
            offset,
        } => {
            let address = address_of(cpu, base, offset);
            load_into(cpu, regions, slot, size, dst, address)
        }
        Insn::LoadSx {
            size,
            dst,
            base,
            offset,
        } => {
            let address = address_of(cpu, base, offset);
            load_signed(cpu, regions, slot, size, dst, address)
        }
        Insn::StoreImm {
            size,
            base,
            offset,
            imm,
        } => {
            let address = address_of(cpu, base, offset);
            store_number(
                cpu,
                regions,
                slot,
                size,
                address,
                (imm as i64).cast_unsigned(),
            )
        }
        Insn::StoreReg {
            size,
            base,
            offset,
            src,
        } => {
            let address = address_of(cpu, base, offset);
            let value = get(cpu, src);
            store_number(cpu, regions, slot, size, address, value)
        }
        Insn::Atomic {
            wide,
            op,
            fetch,
            base,
            offset,
            src,
        } => {
            let address = address_of(cpu, base, offset);
            atomic(cpu, regions, slot, wide, op, fetch, address, src)
        }
        Insn::LoadWide { dst, value } => {
            set(cpu, dst, value);
            Ending::Goes(next(slot, 2))
        }
    }
}

/// One step of the code.
#[inline(never)]
#[tactic(auto, using(crate::proofs::Confined::writes_nothing), unfolding(sbpf_insn::specs::Machine::step))]
pub(crate) fn step_once(code: &Code, cpu: &mut Cpu, regions: &mut Regions, slot: u32) -> Ending
    requires shaped { IsShaped regions.old }
    ensures next { step code.now.insns (state cpu.old slot (machine_regions regions.old)) ≡ next_of result cpu.new (machine_regions regions.new) }
    ensures kept { OnEnd result (machine_regions regions.new ≡ machine_regions regions.old) }
    ensures within { WritesWithin regions.old regions.new }
    ensures shaped { IsShaped regions.new }
{
    match code.at_slot(slot) {
        None => Ending::Done(cpu.registers[0]),
        Some(insn) => act_on(cpu, regions, slot, insn),
    }
}
