// Code from its text.
ghost use Rattle.std.specs.Prelude.{◌≡◌, ◌≤◌, ◌<◌, ◌+◌, ◌^◌, [], map, IfOk, IfErr, OnOk, ◌++◌, IfSome, Some, option_copied};
ghost use Rattle.sbpf_insn.specs.Cells.{slots, insns};
ghost use Rattle.sbpf_text.specs.Asm.{with_label, scan_text, scan_line, scan, so_far, nothing, settle_line, settle, asm, Scans, Labelled, Scanned, slot_behind};
ghost use Rattle.sbpf_text.specs.Faults.{Gives, Assembles, IsFaultAt};
ghost use Rattle.sbpf_text.specs.Instructions.{IsFitting};
ghost use Rattle.sbpf_text.specs.Lexing.{lines};
ghost use Rattle.sbpf_text.specs.declared.fault.TextErr.TheVariants.{NoMemory};

use crate::fault::{AsmFault, AsmKind, LineErr, TextErr};
use crate::instruction::{insn_at, slot_count};
use crate::labels::Labels;
use crate::lexing::{cut_label, is_label, is_line, lines, without_comment};
use sbpf_insn::{Code, Insn};
use std::alloc::Global;

// The fault of a line, with its number.
fn at_line(i: usize, e: LineErr) -> TextErr
    requires { i + 1 < 2 ^ 64 }
    ensures { IsFaultAt (i + 1) e result }
{
    let LineErr::Kind(kind) = e else {
        return TextErr::NoMemory;
    };
    match u32::try_from(i + 1) {
        Ok(line) => TextErr::Asm(AsmFault { line, kind }),
        Err(_) => TextErr::NoMemory,
    }
}

#[tactic(auto, unfolding(crate::specs::Asm::with_label))]
fn add_label(alloc: Global, labels: &mut Labels, slot: u32, name: &[u8]) -> Result<(), LineErr>
    ensures { Labelled result labels.new slot (with_label (so_far labels.old slot) (Some name.now)) }
{
    if !is_label(name) {
        return Err(LineErr::Kind(AsmKind::Label));
    }
    if labels.slot_of(name).is_some() {
        return Err(LineErr::Kind(AsmKind::Label));
    }
    labels.add(alloc, name, slot)?;
    Ok(())
}

#[tactic(auto, unfolding(crate::specs::Asm::with_label))]
fn with_label(
    alloc: Global,
    labels: &mut Labels,
    slot: u32,
    label: Option<&[u8]>,
) -> Result<(), LineErr>
    ensures { Labelled result labels.new slot (with_label (so_far labels.old slot) (option_copied label.entry)) }
{
    match label {
        Some(name) => add_label(alloc, labels, slot, name),
        None => Ok(()),
    }
}

// The slot behind a line's instruction.
fn behind(slot: u32, insn: Option<Insn>) -> u32
    requires small { slot ≤ 4096 }
    requires fits { IfSome insn (λ i. IsFitting slot i) }
    ensures is { result ≡ slot_behind slot insn }
    ensures small { result ≤ 4096 }
{
    match insn {
        Some(insn) => slot + slot_count(insn),
        None => slot,
    }
}

#[tactic(auto, unfolding(crate::specs::Asm::scan_text))]
fn scan_text(alloc: Global, labels: &mut Labels, slot: u32, text: &[u8]) -> Result<u32, LineErr>
    requires { slot ≤ 4096 }
    ensures is { Scans result labels.new (scan_text (so_far labels.old slot) text.now) }
    ensures small { IfOk result (λ s. s ≤ 4096) }
{
    let (label, rest) = cut_label(text);
    with_label(alloc, labels, slot, label)?;
    let insn = insn_at(alloc, labels, slot, false, rest)?;
    Ok(behind(slot, insn))
}

#[tactic(auto, unfolding(crate::specs::Asm::scan_line))]
fn scan_line(alloc: Global, labels: &mut Labels, slot: u32, line: &[u8]) -> Result<u32, LineErr>
    requires { slot ≤ 4096 }
    ensures is { Scans result labels.new (scan_line (so_far labels.old slot) line.now) }
    ensures small { IfOk result (λ s. s ≤ 4096) }
{
    if !is_line(line) {
        return Err(LineErr::Kind(AsmKind::Char));
    }
    scan_text(alloc, labels, slot, without_comment(line))
}

// The labels of the lines.
fn scan(alloc: Global, labels: &mut Labels, lines: &[&[u8]]) -> Result<u32, TextErr>
    requires { labels.old ≡ [] }
    ensures { Scanned result labels.new (scan 1 nothing (map (λ x. x.now) lines.now)) }
{
    let mut slot = 0;
    for (i, line) in lines.iter().enumerate() {
        match scan_line(alloc, labels, slot, line) {
            Ok(next) => slot = next,
            Err(e) => return Err(at_line(i, e)),
        }
    }
    Ok(slot)
}

fn settle_line(
    alloc: Global,
    labels: &Labels,
    slot: u32,
    line: &[u8],
) -> Result<Option<Insn>, LineErr>
    requires { slot ≤ 4096 }
    ensures is { Gives result (settle_line labels.now slot line.now) }
    ensures fits { IfOk result (λ o. IfSome o (λ i. IsFitting slot i)) }
{
    let (_, rest) = cut_label(without_comment(line));
    insn_at(alloc, labels, slot, true, rest)
}

// Puts a line's instruction last.
#[tactic(auto, using(sbpf_insn::proofs::CellLaws::slots_grown))]
fn put(code: &mut Code, insn: Option<Insn>) -> Result<(), TextErr>
    requires small { slots code.old.insns ≤ 4096 }
    requires fits { IfSome insn (λ i. IsFitting (slots code.old.insns) i) }
    ensures ok { OnOk result (code.new.insns ≡ code.old.insns ++ insns insn) }
    ensures small { OnOk result (slots code.new.insns ≤ 4096) }
    ensures err { IfErr result (λ e. e ≡ NoMemory) }
{
    let Some(insn) = insn else {
        return Ok(());
    };
    match code.push(insn) {
        Ok(()) => Ok(()),
        Err(_) => Err(TextErr::NoMemory),
    }
}

// The instructions of the lines.
fn settle(alloc: Global, labels: &Labels, lines: &[&[u8]]) -> Result<Code, TextErr>
    ensures { Assembles result (settle labels.now 1 [] (map (λ x. x.now) lines.now)) }
{
    let mut code = Code::new(alloc);
    for (i, line) in lines.iter().enumerate() {
        match settle_line(alloc, labels, code.slots(), line) {
            Ok(insn) => put(&mut code, insn)?,
            Err(e) => return Err(at_line(i, e)),
        }
    }
    Ok(code)
}

/// The code that bytes spell as assembler text, or its first fault. Any byte other than printable ASCII,
/// tab and the line end is the fault `Char`. Code has at most 4,096 slots.
pub fn assemble_bytes(alloc: Global, text: &[u8]) -> Result<Code, TextErr>
    ensures exact { Assembles result (asm text.now) }
{
    let Ok(lines) = lines(alloc, text) else {
        return Err(TextErr::NoMemory);
    };
    let mut labels = Labels::new(alloc);
    scan(alloc, &mut labels, &lines)?;
    settle(alloc, &labels, &lines)
}

/// The code of an assembler text, or its first fault: the same as of its bytes.
pub fn assemble(alloc: Global, text: &str) -> Result<Code, TextErr>
    ensures exact { Assembles result (asm text.now) }
{
    assemble_bytes(alloc, text.as_bytes())
}
