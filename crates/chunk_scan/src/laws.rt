//! Laws about the definitions. Each is the contract of a function that does nothing.
ghost use Rattle.std.specs.Prelude.{◌≡◌, ◌≤◌, ◌*◌, ◌^◌, ℕ, List, length, map, Some};
ghost use Rattle.std.specs.List.{range_with_len};
ghost use Rattle.plain_files.specs.declared.calls.Call.TheVariants.{Readl};
ghost use Rattle.plain_files.specs.declared.calls.PlainFile.{PlainFile};
ghost use Rattle.plain_files.specs.Plain.{State, Function, file_of, function_of, answer};
ghost use Rattle.chunk_scan.specs.declared.reply.ScanReply.{ScanReply};
ghost use Rattle.chunk_scan.specs.Pieces.{piece_count};
ghost use Rattle.chunk_scan.specs.Replies.{as_reply};
ghost use Rattle.chunk_scan.specs.Scan.{scan};

/// A scan of a file's bytes with a function's code has, for each piece in order, what the plain machine that holds both answers to
/// `readl` on that piece: whatever else it holds, and whatever the numbers are within the limits of `readl`.
pub fn scan_is_readl()
    ensures { (s : State) (file function : List ℕ) (f : PlainFile) (g : Function) (size fuel cap : ℕ) (param : List ℕ)
        → file_of file s.files ≡ Some f → function_of function s.functions ≡ Some g
        → size ≤ 262144 → fuel ≤ 2 ^ 32 → cap ≤ 262144 → length param ≤ 4096
        → scan g.code f.bytes size fuel cap param ≡ map (λ i. (answer s (Readl file (i * size) size function fuel cap param)).reply)
        (range_with_len 0 (piece_count size (length f.bytes))) }
{}

/// Replies that are the same as replies of `readl` are the same.
pub fn replies_are_told_apart()
    ensures { (a b : ScanReply) → as_reply a ≡ as_reply b → a ≡ b }
{}
