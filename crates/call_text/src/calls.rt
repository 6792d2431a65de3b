//! The calls that the words of a line spell.
ghost use Rattle.std.specs.Prelude.{◌≡◌, map};
ghost use Rattle.call_text.specs.Calls.{name_at, number_at, bytes_at, code_at, block_at, no_words, one_name, read_of, write_of, append_of, trunc_of, load_digits, load_block, load_of, readl_words, readl_of, writel_words, writel_of, call_with, call_of};
ghost use Rattle.call_text.specs.Outcomes.{Gives};

use crate::blocks::Blocks;
use crate::faults::{LineErr, ScriptKind};
use crate::verb::Verb;
use edge_io::Bytes;
use plain_files::{Call, Word};
use script_words::{bytes_of, code_of, number_in};
use std::alloc::Global;

// A word in a name's place.
#[tactic(auto, unfolding(crate::specs::Calls::name_at))]
fn name_at(word: &[u8]) -> Result<Word, LineErr>
    ensures { Gives result (name_at word.now) }
{
    match Word::of(word) {
        Some(name) => Ok(name),
        None => Err(LineErr::Kind(ScriptKind::Name)),
    }
}

// A word in a number's place.
#[tactic(auto, unfolding(crate::specs::Calls::number_at))]
fn number_at(word: &[u8]) -> Result<u64, LineErr>
    ensures { Gives result (number_at word.now) }
{
    match number_in(0, u64::MAX, word) {
        Some(n) => Ok(n),
        None => Err(LineErr::Kind(ScriptKind::Number)),
    }
}

// A word in the place of bytes.
#[tactic(auto, unfolding(crate::specs::Calls::bytes_at))]
fn bytes_at(alloc: Global, word: &[u8]) -> Result<Bytes, LineErr>
    ensures { Gives result (bytes_at word.now) }
{
    match bytes_of(alloc, word)? {
        Some(bytes) => Ok(Bytes::new(bytes)),
        None => Err(LineErr::Kind(ScriptKind::Bytes)),
    }
}

// A word behind `code`.
#[tactic(auto, unfolding(crate::specs::Calls::code_at))]
fn code_at(alloc: Global, word: &[u8]) -> Result<Bytes, LineErr>
    ensures { Gives result (code_at word.now) }
{
    match code_of(alloc, word)? {
        Some(code) => Ok(Bytes::new(code)),
        None => Err(LineErr::Kind(ScriptKind::Bytes)),
    }
}

// The code of a block.
#[tactic(auto, unfolding(crate::specs::Calls::block_at))]
fn block_at(alloc: Global, blocks: &Blocks, name: &[u8]) -> Result<Bytes, LineErr>
    ensures { Gives result (block_at blocks.now name.now) }
{
    match blocks.block_of(name) {
        Some(code) => Ok(Bytes::new(code.to_vec(alloc)?)),
        None => Err(LineErr::Kind(ScriptKind::Func)),
    }
}

// No words.
#[tactic(auto, unfolding(crate::specs::Calls::no_words))]
fn no_words(args: &[&[u8]]) -> Result<Call, LineErr>
    ensures { Gives result (no_words (map (λ x. x.now) args.now)) }
{
    match args {
        [] => Ok(Call::Sync),
        _ => Err(LineErr::Kind(ScriptKind::Line)),
    }
}

// `NAME`.
#[tactic(auto, unfolding(crate::specs::Calls::one_name))]
fn one_name(args: &[&[u8]]) -> Result<Word, LineErr>
    ensures { Gives result (one_name (map (λ x. x.now) args.now)) }
{
    match args {
        [word] => name_at(word),
        _ => Err(LineErr::Kind(ScriptKind::Line)),
    }
}

// `NAME OFF LEN`.
#[tactic(auto, unfolding(crate::specs::Calls::read_of))]
fn read_of(args: &[&[u8]]) -> Result<Call, LineErr>
    ensures { Gives result (read_of (map (λ x. x.now) args.now)) }
{
    match args {
        [word, off, len] => {
            let from = number_at(off)?;
            let count = number_at(len)?;
            let name = name_at(word)?;
            Ok(Call::Read(name, from, count))
        }
        _ => Err(LineErr::Kind(ScriptKind::Line)),
    }
}

// `NAME OFF BYTES`.
#[tactic(auto, unfolding(crate::specs::Calls::write_of))]
fn write_of(alloc: Global, args: &[&[u8]]) -> Result<Call, LineErr>
    ensures { Gives result (write_of (map (λ x. x.now) args.now)) }
{
    match args {
        [word, off, text] => {
            let from = number_at(off)?;
            let bytes = bytes_at(alloc, text)?;
            let name = name_at(word)?;
            Ok(Call::Write(name, from, bytes))
        }
        _ => Err(LineErr::Kind(ScriptKind::Line)),
    }
}

// `NAME BYTES`.
#[tactic(auto, unfolding(crate::specs::Calls::append_of))]
fn append_of(alloc: Global, args: &[&[u8]]) -> Result<Call, LineErr>
    ensures { Gives result (append_of (map (λ x. x.now) args.now)) }
{
    match args {
        [word, text] => {
            let bytes = bytes_at(alloc, text)?;
            let name = name_at(word)?;
            Ok(Call::Append(name, bytes))
        }
        _ => Err(LineErr::Kind(ScriptKind::Line)),
    }
}

// `NAME LEN`.
#[tactic(auto, unfolding(crate::specs::Calls::trunc_of))]
fn trunc_of(args: &[&[u8]]) -> Result<Call, LineErr>
    ensures { Gives result (trunc_of (map (λ x. x.now) args.now)) }
{
    match args {
        [word, len] => {
            let count = number_at(len)?;
            let name = name_at(word)?;
            Ok(Call::Trunc(name, count))
        }
        _ => Err(LineErr::Kind(ScriptKind::Line)),
    }
}

// `NAME code DIGITS`.
#[tactic(auto, unfolding(crate::specs::Calls::load_digits))]
fn load_digits(alloc: Global, word: &[u8], digits: &[u8]) -> Result<Call, LineErr>
    ensures { Gives result (load_digits word.now digits.now) }
{
    let code = code_at(alloc, digits)?;
    let name = name_at(word)?;
    Ok(Call::Load(name, code))
}

// `NAME func BLOCK`.
#[tactic(auto, unfolding(crate::specs::Calls::load_block))]
fn load_block(alloc: Global, blocks: &Blocks, word: &[u8], block: &[u8]) -> Result<Call, LineErr>
    ensures { Gives result (load_block blocks.now word.now block.now) }
{
    let name = name_at(word)?;
    let called = name_at(block)?;
    let code = block_at(alloc, blocks, called.as_slice())?;
    Ok(Call::Load(name, code))
}

// `NAME CODE`.
#[tactic(auto, unfolding(crate::specs::Calls::load_of))]
fn load_of(alloc: Global, blocks: &Blocks, args: &[&[u8]]) -> Result<Call, LineErr>
    ensures { Gives result (load_of blocks.now (map (λ x. x.now) args.now)) }
{
    let [word, how, code] = args else {
        return Err(LineErr::Kind(ScriptKind::Line));
    };
    let how: &[u8] = how;
    if how == b"code".as_slice() {
        return load_digits(alloc, word, code);
    }
    if how == b"func".as_slice() {
        return load_block(alloc, blocks, word, code);
    }
    Err(LineErr::Kind(ScriptKind::Line))
}

// `FILE OFF LEN FN FUEL CAP PARAM`, word by word.
#[tactic(auto, unfolding(crate::specs::Calls::readl_words))]
fn readl_words(
    alloc: Global,
    file: &[u8],
    off: &[u8],
    len: &[u8],
    function: &[u8],
    fuel: &[u8],
    cap: &[u8],
    param: &[u8],
) -> Result<Call, LineErr>
    ensures { Gives result (readl_words file.now off.now len.now function.now fuel.now cap.now param.now) }
{
    let off = number_at(off)?;
    let len = number_at(len)?;
    let fuel = number_at(fuel)?;
    let cap = number_at(cap)?;
    let param = bytes_at(alloc, param)?;
    let file = name_at(file)?;
    let function = name_at(function)?;
    Ok(Call::Readl {
        file,
        off,
        len,
        function,
        fuel,
        cap,
        param,
    })
}

// `FILE OFF LEN FN FUEL CAP PARAM`.
#[tactic(auto, unfolding(crate::specs::Calls::readl_of))]
fn readl_of(alloc: Global, args: &[&[u8]]) -> Result<Call, LineErr>
    ensures { Gives result (readl_of (map (λ x. x.now) args.now)) }
{
    match args {
        [file, off, len, function, fuel, cap, param] => {
            readl_words(alloc, file, off, len, function, fuel, cap, param)
        }
        _ => Err(LineErr::Kind(ScriptKind::Line)),
    }
}

// `FILE OFF LEN FN FUEL PARAM INPUT`, word by word.
#[tactic(auto, unfolding(crate::specs::Calls::writel_words))]
fn writel_words(
    alloc: Global,
    file: &[u8],
    off: &[u8],
    len: &[u8],
    function: &[u8],
    fuel: &[u8],
    param: &[u8],
    input: &[u8],
) -> Result<Call, LineErr>
    ensures { Gives result (writel_words file.now off.now len.now function.now fuel.now param.now input.now) }
{
    let off = number_at(off)?;
    let len = number_at(len)?;
    let fuel = number_at(fuel)?;
    let param = bytes_at(alloc, param)?;
    let input = bytes_at(alloc, input)?;
    let file = name_at(file)?;
    let function = name_at(function)?;
    Ok(Call::Writel {
        file,
        off,
        len,
        function,
        fuel,
        param,
        input,
    })
}

// `FILE OFF LEN FN FUEL PARAM INPUT`.
#[tactic(auto, unfolding(crate::specs::Calls::writel_of))]
fn writel_of(alloc: Global, args: &[&[u8]]) -> Result<Call, LineErr>
    ensures { Gives result (writel_of (map (λ x. x.now) args.now)) }
{
    match args {
        [file, off, len, function, fuel, param, input] => {
            writel_words(alloc, file, off, len, function, fuel, param, input)
        }
        _ => Err(LineErr::Kind(ScriptKind::Line)),
    }
}

// The call of a first word and the words behind it.
#[tactic(auto, unfolding(crate::specs::Calls::call_with))]
fn call_with(alloc: Global, blocks: &Blocks, verb: Verb, args: &[&[u8]]) -> Result<Call, LineErr>
    ensures { Gives result (call_with blocks.now verb (map (λ x. x.now) args.now)) }
{
    match verb {
        Verb::Create => Ok(Call::Create(one_name(args)?)),
        Verb::Open => Ok(Call::OpenFile(one_name(args)?)),
        Verb::Stat => Ok(Call::Stat(one_name(args)?)),
        Verb::Remove => Ok(Call::Remove(one_name(args)?)),
        Verb::Read => read_of(args),
        Verb::Write => write_of(alloc, args),
        Verb::Append => append_of(alloc, args),
        Verb::Trunc => trunc_of(args),
        Verb::Seal => Ok(Call::Seal(one_name(args)?)),
        Verb::Load => load_of(alloc, blocks, args),
        Verb::Unload => Ok(Call::Unload(one_name(args)?)),
        Verb::Readl => readl_of(alloc, args),
        Verb::Writel => writel_of(alloc, args),
        Verb::Sync => no_words(args),
    }
}

// The call of a line's words behind the lane.
#[tactic(auto, unfolding(crate::specs::Calls::call_of))]
pub fn call_of(
    alloc: Global,
    blocks: &Blocks,
    verb: Option<Verb>,
    args: &[&[u8]],
) -> Result<Call, LineErr>
    ensures { Gives result (call_of blocks.now verb (map (λ x. x.now) args.now)) }
{
    match verb {
        Some(verb) => call_with(alloc, blocks, verb, args),
        None => Err(LineErr::Kind(ScriptKind::Line)),
    }
}
