//! Replies of pieces, a line each.
ghost use Rattle.std.specs.Prelude.{◌≡◌, ◌++◌, IfOk, string_bytes, codes, decimal};
ghost use Rattle.scan_lines.specs.Lines.{piece_line, chunks_line, scan_lines};

use edge_io::Text;
use plain_files::Reply;
use std::alloc::{AllocError, Global};
use transcript_text::reply_text;

fn piece_text(alloc: Global, piece: usize) -> Result<String, AllocError>
    ensures { IfOk result (λ text. string_bytes text ≡ decimal piece ++ codes " ") }
{
    format!(in alloc; "{piece} ")
}

fn piece_line(alloc: Global, piece: usize, reply: &Reply) -> Result<String, AllocError>
    ensures { IfOk result (λ line. string_bytes line ≡ piece_line piece reply.now) }
{
    let mut line = piece_text(alloc, piece)?;
    line.push_str(reply_text(alloc, reply)?.as_str())?;
    line.push_str("\n")?;
    Ok(line)
}

fn chunks_line(alloc: Global, count: usize) -> Result<String, AllocError>
    ensures { IfOk result (λ line. string_bytes line ≡ chunks_line count) }
{
    format!(in alloc; "chunks {count}\n")
}

/// A line for each reply, with the number of its piece from 0, and then how many there are.
pub fn scan_lines(alloc: Global, replies: &[Reply]) -> Result<Text, AllocError>
    ensures { IfOk result (λ text. text ≡ scan_lines replies.now) }
{
    let mut text = String::new(alloc);
    for (i, reply) in replies.iter().enumerate() {
        let line = piece_line(alloc, i, reply)?;
        text.push_str(line.as_str())?;
    }
    let last = chunks_line(alloc, replies.len())?;
    text.push_str(last.as_str())?;
    Ok(Text::new(text))
}
