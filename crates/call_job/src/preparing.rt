//! All buffers of a call are taken before it begins.
ghost use Rattle.std.specs.Prelude.{◌≡◌, ◌≤◌, ◌+◌, ◌^◌, [], ℕ, List, length, replicate, false, true, Some, None, IfOk};
ghost use Rattle.plain_files.specs.Plain.{is_too_long};
ghost use Rattle.call_job.specs.Buffers.{most_pages, pool_of, HasBuffers, HasParam};
ghost use Rattle.call_job.specs.Prepares.{second_of, flat_of, data_of, AreRegions, room_of, IsPrepared};

use crate::copies::{copy_bytes, copy_request};
use crate::job::Job;
use call_checks::is_too_long;
use dispatcher::Side;
use edge_io::Bytes;
use page_base::Page;
use plain_files::{Call, Request};
use range_locks::Mode;
use sbpf_exec::{Region, Regions};
use sbpf_insn::Code;
use std::alloc::{AllocError, Global};
use system_state::Reach;

/// Why a call was not prepared.
#[derive(Clone, Copy, Debug, PartialEq, Eq, Drop)]
pub enum PrepareErr {
    /// Memory ran out.
    NoMemory,
}

/// A call with all its buffers, before it begins.
#[derive(Drop)]
pub struct Prepared {
    /// The buffers, with the request.
    pub job: Job,
    /// The side that was found where a begin had no room.
    pub picked: Side,
}

/// As many pages as so many bytes can meet.
fn most_pages(n: u64) -> u64
    requires { n ≤ 262144 }
    ensures value { result ≡ most_pages n }
    ensures few { result ≤ 65 }
{
    if n == 0 {
        return 0;
    }
    (n + 4094) / 4096 + 1
}

/// As many pages as the bytes of a call can meet.
fn pool_of(call: &Call) -> u64
    requires { is_too_long call.now ≡ false }
    ensures value { result ≡ pool_of call.now }
    ensures few { result ≤ 65 }
{
    match call {
        Call::Read(_, _, n) => most_pages(*n),
        Call::Write(_, _, bytes) | Call::Append(_, bytes) => {
            most_pages(bytes.as_slice().len() as u64)
        }
        Call::Trunc(..) => 1,
        Call::Readl { len, .. } | Call::Writel { len, .. } => most_pages(*len),
        _ => 0,
    }
}

/// So many pages of zeros.
fn zero_pages(alloc: Global, count: u64) -> Result<Vec<Page>, AllocError>
    ensures { IfOk result (λ v. length v.items ≡ count) }
{
    let mut pages = Vec::new(alloc);
    for _made in 0..count {
        pages.push(Page::zero(alloc)?)?;
    }
    Ok(pages)
}

/// So many zeros.
fn zeros(alloc: Global, count: u64) -> Result<Vec<u8>, AllocError>
    ensures { IfOk result (λ v. v.items ≡ replicate count 0) }
{
    vec![in alloc; 0; count as usize]
}

/// As many pages again for the output of a function that writes.
fn second_of(call: &Call) -> u64
    requires { is_too_long call.now ≡ false }
    ensures { result ≡ second_of call.now }
{
    match call {
        Call::Writel { len, .. } => most_pages(*len),
        _ => 0,
    }
}

/// The pages of a call, and those of its output.
fn pages_for(alloc: Global, call: &Call) -> Result<(Vec<Page>, Vec<Page>), AllocError>
    requires { is_too_long call.now ≡ false }
    ensures pages { IfOk result (λ x. length x.0.items ≡ pool_of call.now) }
    ensures few { IfOk result (λ x. length x.0.items ≤ 65) }
    ensures second { IfOk result (λ x. length x.1.items ≡ second_of call.now) }
{
    let pages = zero_pages(alloc, pool_of(call))?;
    let second = zero_pages(alloc, second_of(call))?;
    Ok((pages, second))
}

/// How many bytes the reply of a read has at most.
fn data_of(call: &Call) -> u64
    ensures { result ≡ data_of call.now }
{
    match call {
        Call::Read(_, _, n) => *n,
        _ => 0,
    }
}

/// The bytes that a function reads or writes besides its pages.
fn flat_for(alloc: Global, call: &Call) -> Result<Bytes, AllocError>
    ensures { IfOk result (λ bytes. bytes ≡ flat_of call.now) }
{
    match call {
        Call::Readl { cap, .. } => Ok(Bytes::new(zeros(alloc, *cap)?)),
        Call::Writel { input, .. } => copy_bytes(alloc, input),
        _ => Ok(Bytes::new(Vec::new(alloc))),
    }
}

/// Regions that have a parameter, and no input or output yet.
fn regions_with(alloc: Global, param: &Bytes) -> Result<Option<Regions>, AllocError>
    ensures { IfOk result (λ regions. HasParam regions param.now) }
{
    let param = copy_bytes(alloc, param)?;
    let input = Region::Flat(Bytes::new(Vec::new(alloc)));
    let output = Region::Flat(Bytes::new(Vec::new(alloc)));
    match Regions::new(alloc, input, output, param) {
        Ok(regions) => Ok(Some(regions)),
        Err(_) => Err(AllocError),
    }
}

/// What a function runs over, if the call has one.
fn regions_for(alloc: Global, call: &Call) -> Result<Option<Regions>, AllocError>
    ensures { IfOk result (λ regions. AreRegions call.now regions) }
{
    match call {
        Call::Readl { param, .. } | Call::Writel { param, .. } => regions_with(alloc, param),
        _ => Ok(None),
    }
}

/// Room for the code of a function, if the call has one.
fn code_for(alloc: Global, call: &Call) -> Result<Code, AllocError>
    ensures insns { IfOk result (λ code. code.insns ≡ []) }
    ensures room { IfOk result (λ code. code.room ≡ room_of call.now) }
{
    match call {
        Call::Readl { .. } | Call::Writel { .. } => Code::with_room(alloc, 4096),
        _ => Ok(Code::new(alloc)),
    }
}

/// The reach of a call that hasn't begun.
fn no_reach() -> Reach {
    Reach {
        mode: Mode::Shared,
        from: 0,
        to: 0,
        first: 0,
        pages: 0,
        begin: 0,
        end: 0,
    }
}

/// A request without buffers. It takes no memory.
fn bare_job(alloc: Global, request: Request) -> Job
    ensures request { result.request ≡ request }
    ensures fresh { result.ran ≡ None }
    ensures code { result.code.insns ≡ [] }
{
    Job {
        request,
        side: Side::Host,
        reach: no_reach(),
        readable: 0,
        code: Code::new(alloc),
        pages: Vec::new(alloc),
        second: Vec::new(alloc),
        flat: Bytes::new(Vec::new(alloc)),
        data: Vec::new(alloc),
        regions: None,
        ran: None,
        alloc,
    }
}

/// A request gets its buffers.
fn fill_job(alloc: Global, request: Request) -> Result<Job, AllocError>
    requires { is_too_long request.call ≡ false }
    ensures request { IfOk result (λ job. job.request ≡ request) }
    ensures fresh { IfOk result (λ job. job.ran ≡ None) }
    ensures code { IfOk result (λ job. job.code.insns ≡ []) }
    ensures buffers { IfOk result (λ job. HasBuffers job) }
{
    let (pages, second) = pages_for(alloc, &request.call)?;
    let flat = flat_for(alloc, &request.call)?;
    let data = zeros(alloc, data_of(&request.call))?;
    let regions = regions_for(alloc, &request.call)?;
    let code = code_for(alloc, &request.call)?;
    Ok(Job {
        request,
        side: Side::Host,
        reach: no_reach(),
        readable: 0,
        code,
        pages,
        second,
        flat,
        data,
        regions,
        ran: None,
        alloc,
    })
}

/// A request with its buffers. One whose numbers are above their limits gets none, since it is refused.
fn prepare(alloc: Global, request: &Request) -> Result<Job, AllocError>
    ensures { IfOk result (λ job. IsPrepared request.now job) }
{
    let copy = copy_request(alloc, request)?;
    if is_too_long(&request.call) {
        Ok(bare_job(alloc, copy))
    } else {
        fill_job(alloc, copy)
    }
}

impl Prepared {
    /// A call with a copy of its request and all buffers that it can need. Nothing takes memory for it afterwards.
    pub fn new(alloc: Global, request: &Request) -> Result<Prepared, PrepareErr>
        ensures { IfOk result (λ p. IsPrepared request.now p.job) }
    {
        match prepare(alloc, request) {
            Ok(job) => Ok(Prepared {
                job,
                picked: Side::Host,
            }),
            Err(_) => Err(PrepareErr::NoMemory),
        }
    }

    /// The side that was found where a begin had no room.
    pub fn picked(&self) -> Side
        ensures { result ≡ self.now.picked }
    {
        self.picked
    }

    /// Hands the buffers on.
    pub fn into_job(self) -> Job
        ensures { result ≡ self.job }
    {
        self.job
    }
}
