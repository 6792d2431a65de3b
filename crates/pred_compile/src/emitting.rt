//! The instructions of a predicate. Control only jumps forward, but for one jump back at the end of a
//! record, so no value needs a stack: a comparison jumps to where its connectives send it.

ghost use Rattle.std.specs.Prelude.{◌≡◌, ◌+◌, ◌*◌, ◌<◌, ◌≤◌, ◌^◌, pos, true, [], ◌∷◌, ◌++◌, IfOk, OnOk};
ghost use Rattle.sbpf_insn.specs.declared.insn.Src.TheVariants as src;
ghost use Rattle.sbpf_insn.specs.declared.insn.Size.TheVariants as size;
ghost use Rattle.sbpf_insn.specs.declared.insn.Insn.TheVariants as insn;
ghost use Rattle.predicates.specs.Nodes.{nodes};
ghost use Rattle.predicates.specs.Fields.{fields_fit};
ghost use Rattle.pred_compile.specs.Generated.{field, place, context, size_of, cond_of, is_short, slots_where, code_slots, short_code, wide_code, compare_code, pred_code, opening, record_test, taking, going_on, ending, pred_program};

use predicates::{Pred, PredCond};
use sbpf_insn::{AluOp, Cond, Insn, Reg, Size, Src};
use std::alloc::{AllocError, Global};

/// The bytes written so far.
const WRITTEN: Reg = Reg { n: 0 };
/// The address of the context.
const CONTEXT: Reg = Reg { n: 1 };
/// The field and the number of a comparison.
const FIELD: Reg = Reg { n: 2 };

const VALUE: Reg = Reg { n: 3 };
/// The address of the record.
const PLACE: Reg = Reg { n: 6 };
/// How many bytes of input are left from there on.
const REST: Reg = Reg { n: 7 };
/// The address behind what was written.
const END: Reg = Reg { n: 8 };
/// The record's number.
const COUNT: Reg = Reg { n: 9 };

fn size_of(size: u32) -> Size
    ensures { result ≡ size_of size }
{
    match size {
        1 => Size::B,
        2 => Size::H,
        4 => Size::W,
        _ => Size::Dw,
    }
}

fn cond_of(cond: PredCond) -> Cond
    ensures { result ≡ cond_of cond }
{
    match cond {
        PredCond::Eq => Cond::Jeq,
        PredCond::Ne => Cond::Jne,
        PredCond::Gt => Cond::Jgt,
        PredCond::Ge => Cond::Jge,
        PredCond::Lt => Cond::Jlt,
        PredCond::Le => Cond::Jle,
    }
}

/// The instructions of a whole program.
pub(crate) fn emit_program(alloc: Global, pred: &Pred, width: u32) -> Result<Vec<Insn>, AllocError>
    requires short { width ≤ 4096 }
    requires few { nodes pred.now ≤ 200 }
    requires fit { fields_fit pred.now width ≡ true }
    ensures { IfOk result (λ v. v.items ≡ pred_program pred.now width) }
{
    let inner = code_slots(pred);
    let mut out = Vec::new(alloc);
    open(&mut out, inner, width)?;
    emit(&mut out, pred, width, 0, 3)?;
    close(&mut out, inner, width)?;
    Ok(out)
}

/// The numbers that a comparison holds in itself lie below: its field of 32 bits is taken with a sign.
const SHORT: u64 = 1 << 31;

// How many slots a comparison with a number has.
fn compare_slots(value: u64) -> u16
    ensures is { result ≡ slots_where (is_short value) }
    ensures few { result ≤ 5 }
{
    if value < SHORT { 3 } else { 5 }
}

// How many slots the code of a predicate has.
fn code_slots(pred: &Pred) -> u16
    requires { nodes pred.now ≤ 200 }
    ensures is { result ≡ code_slots pred.now }
    ensures few { result ≤ 5 * nodes pred.now }
{
    match pred {
        Pred::Cmp { value, .. } => compare_slots(*value),
        Pred::And(a, b) => code_slots(a.get()) + code_slots(b.get()),
        Pred::Or(a, b) => code_slots(a.get()) + code_slots(b.get()),
        Pred::Not(a) => code_slots(a.get()),
    }
}

// What stands before the predicate's code, which has so many slots.
fn open(out: &mut Vec<Insn>, inner: u16, width: u32) -> Result<(), AllocError>
    requires inner { inner ≤ 1000 }
    requires short { width ≤ 4096 }
    ensures { OnOk result (out.new.items ≡ out.old.items ++ (opening ++ record_test inner width)) }
{
    load_word(out, PLACE, 0)?;
    load_word(out, REST, 8)?;
    load_word(out, END, 16)?;
    out.push(Insn::Jump {
        wide: true,
        cond: Cond::Jlt,
        dst: REST,
        src: Src::Imm(width as i32),
        offset: (inner + 7) as i16,
    })?;
    Ok(())
}

// A word of the context.
fn load_word(out: &mut Vec<Insn>, dst: Reg, offset: i16) -> Result<(), AllocError>
    ensures { OnOk result (out.new.items ≡ out.old.items ++ insn.Load size.Dw dst context offset ∷ []) }
{
    out.push(Insn::Load {
        size: Size::Dw,
        dst,
        base: CONTEXT,
        offset,
    })?;
    Ok(())
}

// What stands behind the predicate's code.
fn close(out: &mut Vec<Insn>, inner: u16, width: u32) -> Result<(), AllocError>
    requires inner { inner ≤ 1000 }
    requires short { width ≤ 4096 }
    ensures { OnOk result (out.new.items ≡ out.old.items ++ (taking ++ (going_on inner width ++ ending))) }
{
    out.push(Insn::StoreReg {
        size: Size::W,
        base: END,
        offset: 0,
        src: COUNT,
    })?;
    step(out, AluOp::Add, END, 4)?;
    step(out, AluOp::Add, WRITTEN, 4)?;
    step(out, AluOp::Add, COUNT, 1)?;
    step(out, AluOp::Add, PLACE, width)?;
    step(out, AluOp::Sub, REST, width)?;
    out.push(Insn::Ja {
        offset: -8 - inner as i16,
    })?;
    out.push(Insn::Exit)?;
    Ok(())
}

// A register grows or shrinks by a number.
fn step(out: &mut Vec<Insn>, op: AluOp, dst: Reg, by: u32) -> Result<(), AllocError>
    requires { by ≤ 4096 }
    ensures { OnOk result (out.new.items ≡ out.old.items ++ insn.Alu true op dst (src.Imm (pos by)) ∷ []) }
{
    out.push(Insn::Alu {
        wide: true,
        op,
        dst,
        src: Src::Imm(by as i32),
    })?;
    Ok(())
}

// The code of a predicate, after which control goes on so many slots behind it.
fn emit(
    out: &mut Vec<Insn>,
    pred: &Pred,
    width: u32,
    on_true: u16,
    on_false: u16,
) -> Result<(), AllocError>
    requires short { width ≤ 4096 }
    requires few { nodes pred.now ≤ 200 }
    requires fit { fields_fit pred.now width ≡ true }
    requires on_true { on_true + code_slots pred.now < 2 ^ 15 }
    requires on_false { on_false + code_slots pred.now < 2 ^ 15 }
    ensures { OnOk result (out.new.items ≡ out.old.items ++ pred_code pred.now on_true on_false) }
{
    match pred {
        Pred::Cmp {
            cond,
            off,
            size,
            value,
        } => {
            load_field(out, *off, *size)?;
            compare(out, *cond, *value, on_true, on_false)
        }
        Pred::And(a, b) => {
            emit(out, a.get(), width, 0, code_slots(b.get()) + on_false)?;
            emit(out, b.get(), width, on_true, on_false)
        }
        Pred::Or(a, b) => {
            emit(out, a.get(), width, code_slots(b.get()) + on_true, 0)?;
            emit(out, b.get(), width, on_true, on_false)
        }
        Pred::Not(a) => emit(out, a.get(), width, on_false, on_true),
    }
}

fn load_field(out: &mut Vec<Insn>, off: u32, size: u32) -> Result<(), AllocError>
    requires { off ≤ 4096 }
    ensures { OnOk result (out.new.items ≡ out.old.items ++ insn.Load (size_of size) field place (pos off) ∷ []) }
{
    out.push(Insn::Load {
        size: size_of(size),
        dst: FIELD,
        base: PLACE,
        offset: off as i16,
    })?;
    Ok(())
}

// The comparison of the field that was loaded. A number below 2^31 stands in it; another is loaded first.
fn compare(
    out: &mut Vec<Insn>,
    cond: PredCond,
    value: u64,
    on_true: u16,
    on_false: u16,
) -> Result<(), AllocError>
    requires on_true { on_true + 1 < 2 ^ 15 }
    requires on_false { on_false < 2 ^ 15 }
    ensures { OnOk result (out.new.items ≡ out.old.items ++ compare_code cond value on_true on_false) }
{
    if value < SHORT {
        return compare_short(out, cond, value, on_true, on_false);
    }
    compare_wide(out, cond, value, on_true, on_false)
}

fn compare_short(
    out: &mut Vec<Insn>,
    cond: PredCond,
    value: u64,
    on_true: u16,
    on_false: u16,
) -> Result<(), AllocError>
    requires short { value < 2 ^ 31 }
    requires on_true { on_true + 1 < 2 ^ 15 }
    requires on_false { on_false < 2 ^ 15 }
    ensures { OnOk result (out.new.items ≡ out.old.items ++ short_code cond value on_true on_false) }
{
    out.push(Insn::Jump {
        wide: true,
        cond: cond_of(cond),
        dst: FIELD,
        src: Src::Imm(value as i32),
        offset: (on_true + 1) as i16,
    })?;
    out.push(Insn::Ja {
        offset: on_false as i16,
    })?;
    Ok(())
}

fn compare_wide(
    out: &mut Vec<Insn>,
    cond: PredCond,
    value: u64,
    on_true: u16,
    on_false: u16,
) -> Result<(), AllocError>
    requires on_true { on_true + 1 < 2 ^ 15 }
    requires on_false { on_false < 2 ^ 15 }
    ensures { OnOk result (out.new.items ≡ out.old.items ++ wide_code cond value on_true on_false) }
{
    out.push(Insn::LoadWide { dst: VALUE, value })?;
    out.push(Insn::Jump {
        wide: true,
        cond: cond_of(cond),
        dst: FIELD,
        src: Src::Reg(VALUE),
        offset: (on_true + 1) as i16,
    })?;
    out.push(Insn::Ja {
        offset: on_false as i16,
    })?;
    Ok(())
}
