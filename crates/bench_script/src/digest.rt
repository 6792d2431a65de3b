//! The digest of a transcript.
ghost use Rattle.std.specs.Prelude.{◌≡◌, IfOk, string_bytes};
ghost use Rattle.hex.specs.Hex.{encode_lower};
ghost use Rattle.sha2.specs.Sha256.{sha256};
ghost use Rattle.bench_script.specs.Digest.{script_part, counts_part, digest_part, digest_line};

use crate::script::{both, numbered};
use edge_io::Text;
use sha2::{Digest, Sha256};
use std::alloc::{AllocError, Global};

fn digest(bytes: &[u8]) -> [u8; 32]
    ensures { result ≡ sha256 bytes.now }
{
    Sha256::digest(bytes)
}

// The digest in hexadecimal digits.
fn digest_text(alloc: Global, bytes: &[u8]) -> Result<String, AllocError>
    ensures { IfOk result (λ text. string_bytes text ≡ encode_lower (sha256 bytes.now)) }
{
    let digest = digest(bytes);
    hex::encode(alloc, digest.as_slice())
}

fn script_part(alloc: Global, start: u64, calls: u32) -> Result<String, AllocError>
    ensures { IfOk result (λ text. string_bytes text ≡ script_part start calls) }
{
    let start = numbered(alloc, "bench start=", start)?;
    let calls = numbered(alloc, " calls=", u64::from(calls))?;
    both(alloc, start.as_str(), calls.as_str())
}

fn counts_part(alloc: Global, start: u64, calls: u32, replies: u64) -> Result<String, AllocError>
    ensures { IfOk result (λ text. string_bytes text ≡ counts_part start calls replies) }
{
    let script = script_part(alloc, start, calls)?;
    let replies = numbered(alloc, " replies=", replies)?;
    both(alloc, script.as_str(), replies.as_str())
}

fn digest_part(alloc: Global, reply_lines: &[u8]) -> Result<String, AllocError>
    ensures { IfOk result (λ text. string_bytes text ≡ digest_part reply_lines.now) }
{
    let digest = digest_text(alloc, reply_lines)?;
    let digest = digest.as_str();
    format!(in alloc; " sha256={digest}\n")
}

/// The line that `bench` prints of a run: the start and the number of drawn lines of its script, the number of its
/// replies, and the SHA-256 digest of their lines. `Err` comes where memory ran out.
pub fn digest_line(
    alloc: Global,
    start: u64,
    calls: u32,
    replies: u64,
    reply_lines: &[u8],
) -> Result<Text, AllocError>
    ensures { IfOk result (λ line. line ≡ digest_line start calls replies reply_lines.now) }
{
    let counts = counts_part(alloc, start, calls, replies)?;
    let digest = digest_part(alloc, reply_lines)?;
    Ok(Text::new(both(alloc, counts.as_str(), digest.as_str())?))
}
