// The five regions of a run.
ghost use Rattle.std.specs.Prelude.{◌≡◌, ◌+◌, ◌-◌, ◌^◌, ◌<◌, ◌≤◌, min, nat_le, length, take, drop, IsTrue, IsFalse, IfOk, IfErr, IfSome, Some, None, if◌then◌else◌};
ghost use Rattle.std.specs.Borrow.{sem};
ghost use Rattle.sbpf_insn.specs.Machine.{load, load_writable, store, shaped, number_at, put_number, size_len};
ghost use Rattle.sbpf_exec.specs.Buffers.{Fits, placed, part};
ghost use Rattle.sbpf_exec.specs.Parts.{lengths_context, IsInInput, IsInOutput, IsInStack, input_of, output_of, param_of, machine_regions, IsShaped, WritesWithin};
ghost use Rattle.sbpf_exec.specs.Lending.{LendsInput, LendsOutput};

use crate::number::{number, put_number, size_len};
use crate::pages::{page_number, put_in_one};
use crate::region::{Region, inside_number, place, put_in_region, region_number};
use edge_io::Bytes;
use page_base::Page;
use sbpf_insn::Size;
use std::alloc::Global;

/// The regions of a call, made once and used for many runs: context, input, output, parameter and a
/// stack of 4,096 bytes. `shape` sets them up for a run.
#[derive(Drop)]
pub struct Regions {
    context: [u8; 48],
    input: Region,
    input_len: usize,
    output: Region,
    output_len: usize,
    param: Bytes,
    stack: Page,
}

/// Why regions were not made: want of memory. The buffers are handed back.
#[derive(Drop)]
pub enum RegionErr {
    NoMemory(Region, Region, Bytes),
}

impl Regions {
    /// Regions over these buffers. They have to be shaped before a run.
    pub fn new(
        alloc: Global,
        input: Region,
        output: Region,
        param: Bytes,
    ) -> Result<Regions, RegionErr>
        ensures input { IfOk result (λ r. input_of r ≡ input) }
        ensures output { IfOk result (λ r. output_of r ≡ output) }
        ensures param { IfOk result (λ r. param_of r ≡ param) }
        ensures err { IfErr result (λ e. e ≡ RegionErr.NoMemory input output param) }
    {
        match Page::zero(alloc) {
            Ok(stack) => Ok(Regions {
                context: [0; 48],
                input,
                input_len: 0,
                output,
                output_len: 0,
                param,
                stack,
            }),
            Err(_) => Err(RegionErr::NoMemory(input, output, param)),
        }
    }

    /// Sets up for a run: the places and lengths of input and output, which fit their buffers, the context,
    /// which has the base and the length of input, output and parameter, and a stack of zeros. Flat buffers
    /// are used from their first byte on. Takes no memory.
    pub fn shape(&mut self, in_start: usize, in_len: usize, out_start: usize, out_len: usize)
        requires input { Fits (input_of self.old) in_start in_len }
        requires output { Fits (output_of self.old) out_start out_len }
        requires input_len { in_len ≤ 2 ^ 32 }
        requires output_len { out_len ≤ 2 ^ 32 }
        requires param_len { length (param_of self.old) ≤ 2 ^ 32 }
        ensures input { input_of self.new ≡ placed (input_of self.old) in_start in_len }
        ensures output { output_of self.new ≡ placed (output_of self.old) out_start out_len }
        ensures param { param_of self.new ≡ param_of self.old }
        ensures regions { machine_regions self.new ≡ shaped (part (input_of self.old) in_start in_len) (part (output_of self.old) out_start out_len) (param_of self.old) }
        ensures shaped { IsShaped self.new }
    {
        place(&mut self.input, in_start, in_len);
        place(&mut self.output, out_start, out_len);
        self.input_len = in_len;
        self.output_len = out_len;
        let param_len = self.param.as_slice().len();
        write_context(&mut self.context, in_len, out_len, param_len);
        self.stack.clear_from(0);
    }

    /// The input's buffer and its place.
    pub fn input_mut(&mut self) -> &mut Region
        ensures* writes_back { sem 𝓛 (LendsInput self.entry result) }
        ensures value { result.now ≡ input_of self.old }
    {
        &mut self.input
    }

    /// The output's buffer and its place.
    pub fn output_mut(&mut self) -> &mut Region
        ensures* writes_back { sem 𝓛 (LendsOutput self.entry result) }
        ensures value { result.now ≡ output_of self.old }
    {
        &mut self.output
    }

    /// Gives the buffers back.
    pub fn into_parts(self) -> (Region, Region, Bytes)
        ensures input { result.0 ≡ input_of self }
        ensures output { result.1 ≡ output_of self }
        ensures param { result.2 ≡ param_of self }
    {
        (self.input, self.output, self.param)
    }

    // The number at an address, where it is wholly in one region.
    #[inline]
    pub(crate) fn load(&self, top: u64, address: u64, size: Size) -> Option<u64>
        requires { IsShaped self.now }
        ensures { result ≡ load (machine_regions self.now) top address size }
    {
        let at = (address % 0x1_0000_0000) as usize;
        let area = address / 0x1_0000_0000;
        if area == 2 {
            region_number(&self.input, self.input_len, at, size)
        } else if area == 3 {
            region_number(&self.output, self.output_len, at, size)
        } else if area == 5 {
            stack_number(&self.stack, top, at, size)
        } else if area == 4 {
            flat_number(self.param.as_slice(), at, size)
        } else if area == 1 {
            flat_number(&self.context, at, size)
        } else {
            None
        }
    }

    // Whether a number at an address lies wholly in the input.
    #[inline]
    pub(crate) fn is_in_input(&self, address: u64, size: Size) -> bool
        ensures { IsTrue result → IsInInput self.now address size }
    {
        let at = (address % 0x1_0000_0000) as usize;
        address / 0x1_0000_0000 == 2 && at + size_len(size) <= self.input_len
    }

    // The number at an address in the input, whatever r10 is.
    #[inline(always)]
    pub(crate) fn input_number(&self, top: u64, address: u64, size: Size) -> u64
        requires shaped { IsShaped self.now }
        requires inside { IsInInput self.now address size }
        ensures { load (machine_regions self.now) top address size ≡ Some result }
    {
        let at = (address % 0x1_0000_0000) as usize;
        inside_number(&self.input, self.input_len, at, size)
    }

    // Whether a number at an address lies wholly in the output.
    #[inline]
    pub(crate) fn is_in_output(&self, address: u64, size: Size) -> bool
        ensures { IsTrue result → IsInOutput self.now address size }
    {
        let at = (address % 0x1_0000_0000) as usize;
        address / 0x1_0000_0000 == 3 && at + size_len(size) <= self.output_len
    }

    // The number at an address in the output, whatever r10 is.
    #[inline(always)]
    pub(crate) fn output_number(&self, top: u64, address: u64, size: Size) -> u64
        requires shaped { IsShaped self.now }
        requires inside { IsInOutput self.now address size }
        ensures { load (machine_regions self.now) top address size ≡ Some result }
    {
        let at = (address % 0x1_0000_0000) as usize;
        inside_number(&self.output, self.output_len, at, size)
    }

    // Whether a number at an address lies wholly in the stack below r10.
    #[inline]
    pub(crate) fn is_in_stack(&self, top: u64, address: u64, size: Size) -> bool
        ensures { IsTrue result → IsInStack top address size }
    {
        let at = (address % 0x1_0000_0000) as usize;
        let len = size_len(size);
        address / 0x1_0000_0000 == 5 && at + len <= 4096 && address + len as u64 <= top
    }

    // The number at an address in the stack.
    #[inline(always)]
    pub(crate) fn number_in_stack(&self, top: u64, address: u64, size: Size) -> u64
        requires shaped { IsShaped self.now }
        requires inside { IsInStack top address size }
        ensures { load (machine_regions self.now) top address size ≡ Some result }
    {
        let at = (address % 0x1_0000_0000) as usize;
        page_number(&self.stack, at, size)
    }

    // The number at an address, by a call.
    #[inline(never)]
    pub(crate) fn load_far(&self, top: u64, address: u64, size: Size) -> Option<u64>
        requires { IsShaped self.now }
        ensures { result ≡ load (machine_regions self.now) top address size }
    {
        self.load(top, address, size)
    }

    // Writes a number at an address; false, and nothing changes, where it isn't wholly in one region that
    // may be written.
    #[inline]
    pub(crate) fn store(&mut self, top: u64, address: u64, size: Size, value: u64) -> bool
        requires { IsShaped self.old }
        ensures done { IsTrue result → store (machine_regions self.old) top address size value ≡ Some (machine_regions self.new) }
        ensures refused { IsFalse result → store (machine_regions self.old) top address size value ≡ None }
        ensures kept { IsFalse result → machine_regions self.new ≡ machine_regions self.old }
        ensures within { WritesWithin self.old self.new }
        ensures shaped { IsShaped self.new }
    {
        let at = (address % 0x1_0000_0000) as usize;
        let area = address / 0x1_0000_0000;
        if area == 3 {
            put_in_region(&mut self.output, self.output_len, at, size, value)
        } else if area == 5 {
            put_in_stack(&mut self.stack, top, at, size, value)
        } else {
            false
        }
    }

    // The same write, soonest to the stack and to the output.
    #[inline(always)]
    pub(crate) fn store_near(&mut self, top: u64, address: u64, size: Size, value: u64) -> bool
        requires { IsShaped self.old }
        ensures done { IsTrue result → store (machine_regions self.old) top address size value ≡ Some (machine_regions self.new) }
        ensures refused { IsFalse result → store (machine_regions self.old) top address size value ≡ None }
        ensures kept { IsFalse result → machine_regions self.new ≡ machine_regions self.old }
        ensures within { WritesWithin self.old self.new }
        ensures shaped { IsShaped self.new }
    {
        if self.is_in_stack(top, address, size) {
            let at = (address % 0x1_0000_0000) as usize;
            put_in_one(&mut self.stack, at, size, value);
            return true;
        }
        if self.is_in_output(address, size) {
            let at = (address % 0x1_0000_0000) as usize;
            return put_in_region(&mut self.output, self.output_len, at, size, value);
        }
        self.store_far(top, address, size, value)
    }

    // The same write, by a call.
    #[inline(never)]
    fn store_far(&mut self, top: u64, address: u64, size: Size, value: u64) -> bool
        requires { IsShaped self.old }
        ensures done { IsTrue result → store (machine_regions self.old) top address size value ≡ Some (machine_regions self.new) }
        ensures refused { IsFalse result → store (machine_regions self.old) top address size value ≡ None }
        ensures kept { IsFalse result → machine_regions self.new ≡ machine_regions self.old }
        ensures within { WritesWithin self.old self.new }
        ensures shaped { IsShaped self.new }
    {
        self.store(top, address, size, value)
    }

    // The number at an address, where it is wholly in one region that may be written.
    #[inline]
    pub(crate) fn load_writable(&self, top: u64, address: u64, size: Size) -> Option<u64>
        requires { IsShaped self.now }
        ensures { result ≡ load_writable (machine_regions self.now) top address size }
    {
        let at = (address % 0x1_0000_0000) as usize;
        let area = address / 0x1_0000_0000;
        if area == 3 {
            region_number(&self.output, self.output_len, at, size)
        } else if area == 5 {
            stack_number(&self.stack, top, at, size)
        } else {
            None
        }
    }
}

// The base and the length of input, output and parameter.
fn write_context(context: &mut [u8], in_len: usize, out_len: usize, param_len: usize)
    requires { length context.old ≡ 48 }
    ensures { context.new ≡ lengths_context in_len out_len param_len }
{
    put_number(context, 0, Size::Dw, 0x2_0000_0000);
    put_number(context, 8, Size::Dw, in_len as u64);
    put_number(context, 16, Size::Dw, 0x3_0000_0000);
    put_number(context, 24, Size::Dw, out_len as u64);
    put_number(context, 32, Size::Dw, 0x4_0000_0000);
    put_number(context, 40, Size::Dw, param_len as u64);
}

// The number at a place of bytes; None where it isn't wholly there.
#[inline]
fn flat_number(bytes: &[u8], at: usize, size: Size) -> Option<u64>
    requires { at < 2 ^ 32 }
    ensures { result ≡ (if nat_le (at + size_len size) (length bytes.now) then Some (number_at size bytes.now at) else None) }
{
    if at + size_len(size) > bytes.len() {
        return None;
    }
    Some(number(bytes, at, size))
}

// How much of the stack may be used: up to r10.
#[inline]
fn stack_len(top: u64) -> usize
    ensures { result ≡ min 4096 (top - 0x500000000) }
{
    let used = top.saturating_sub(0x5_0000_0000);
    if 4096 < used { 4096 } else { used as usize }
}

// The number at a place of the stack; None where it isn't wholly below r10.
#[inline]
fn stack_number(stack: &Page, top: u64, at: usize, size: Size) -> Option<u64>
    requires { at < 2 ^ 32 }
    ensures number { result ≡ (if nat_le (at + size_len size) (min 4096 (top - 0x500000000)) then Some (number_at size stack.now at) else None) }
    ensures whole { length stack.now ≡ 4096 }
{
    let _first = stack.byte(0);
    if at + size_len(size) > stack_len(top) {
        return None;
    }
    Some(page_number(stack, at, size))
}

// Writes a number at a place of the stack; false, and nothing changes, where it isn't wholly below r10.
#[inline]
fn put_in_stack(stack: &mut Page, top: u64, at: usize, size: Size, value: u64) -> bool
    requires { at < 2 ^ 32 }
    ensures done { result ≡ nat_le (at + size_len size) (min 4096 (top - 0x500000000)) }
    ensures bytes { stack.new ≡ (if nat_le (at + size_len size) (min 4096 (top - 0x500000000)) then put_number size stack.old at value else stack.old) }
    ensures whole { length stack.old ≡ 4096 }
    ensures kept { length stack.new ≡ 4096 }
{
    let _first = stack.byte(0);
    if at + size_len(size) > stack_len(top) {
        return false;
    }
    put_in_one(stack, at, size, value);
    true
}
