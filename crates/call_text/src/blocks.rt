//! The blocks of a script, and the code of each.
ghost use Rattle.std.specs.Prelude.{◌≡◌, ◌++◌, ◌∷◌, [], OnOk, None, option_copied, map};
ghost use Rattle.std.specs.List.{list_any};
ghost use Rattle.call_text.specs.Blocks.{block_of, begins_block, ends_block, assembled};
ghost use Rattle.call_text.specs.Outcomes.{Reads};

use crate::faults::ScriptErr;
use edge_io::Bytes;
use indexmap::IndexMap;
use sbpf_insn::encode;
use sbpf_text::{AsmFault, TextErr, assemble_bytes};
use script_words::cut_word;
use std::alloc::{AllocError, Global};
use std::marker::Model;

// Names of blocks, and the bytes of their code, in the order of the lines.
#[derive(Drop)]
pub struct Blocks {
    codes: IndexMap<Vec<u8>, Bytes>,
}

impl Model for Blocks {
    ghost use Rattle.std.specs.Prelude.{List, map};
    ghost use Rattle.call_text.specs.Blocks.{Block};

    ghost Value = { List Block };

    ghost view = { λ b. map (λ e. record { name = e.0.items; code = e.1 }) b.codes.entries };
}

impl Blocks {
    pub fn new(alloc: Global) -> Self
        ensures { result ≡ [] }
    {
        Blocks {
            codes: IndexMap::new(alloc),
        }
    }

    // The code of a name.
    pub fn block_of(&self, name: &[u8]) -> Option<&[u8]>
        ensures { option_copied result ≡ block_of name.now self.now }
    {
        match self.codes.get(name) {
            Some(code) => Some(code.as_slice()),
            None => None,
        }
    }

    // Puts a new name last.
    pub fn add(&mut self, alloc: Global, name: &[u8], code: Bytes) -> Result<(), AllocError>
        requires { block_of name.now self.old ≡ None }
        ensures { OnOk result (self.new ≡ self.old ++ record { name = name.now; code = code } ∷ []) }
    {
        let name = name.to_vec(alloc)?;
        self.codes.insert(name, code)?;
        Ok(())
    }
}

// Whether a block begins on a line, however faulty.
pub fn begins_block(line: &[u8]) -> bool
    ensures { result ≡ begins_block line.now }
{
    let (first, _) = cut_word(line);
    first == b"func".as_slice()
}

// Whether a block ends on a line.
pub fn ends_block(line: &[u8]) -> bool
    ensures { result ≡ ends_block line.now }
{
    let (first, rest) = cut_word(line);
    first == b"end".as_slice() && cut_word(rest).0.is_empty()
}

// Whether a block ends on one of the lines.
pub fn has_end(rest: &[&[u8]]) -> bool
    ensures { result ≡ list_any ends_block (map (λ x. x.now) rest.now) }
{
    for line in rest {
        if ends_block(line) {
            return true;
        }
    }
    false
}

// The bytes of the code of a block that begins on a line. No script is so long that the fault's line doesn't fit.
pub fn assembled(alloc: Global, line: u32, text: &[u8]) -> Result<Bytes, ScriptErr>
    ensures { Reads result (assembled line text.now) }
{
    match assemble_bytes(alloc, text) {
        Ok(code) => Ok(Bytes::new(encode(alloc, &code)?)),
        Err(TextErr::NoMemory) => Err(ScriptErr::NoMemory),
        Err(TextErr::Asm(fault)) => match line.checked_add(fault.line) {
            Some(line) => {
                let kind = fault.kind;
                Err(ScriptErr::Asm(AsmFault { line, kind }))
            }
            None => Err(ScriptErr::NoMemory),
        },
    }
}
