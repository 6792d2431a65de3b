//! Laws: each is the contract of an empty function.
ghost use Rattle.std.specs.Prelude.{◌≡◌, ◌+◌, ◌*◌, ◌%◌, ◌<◌, ℕ, List, length, get_or, false, true, Some, unwrap_or};
ghost use Rattle.page_base.specs.Bytes.{Put};
ghost use Rattle.plain_files.specs.Plain.{bytes_in, stored, effect, answer};
ghost use Rattle.plain_files.specs.declared.calls.Call.TheVariants.{Read, Readl, Trunc};
ghost use Rattle.plain_files.specs.declared.calls.Reply.{Reply};
ghost use Rattle.plain_files.specs.declared.calls.Reply.TheVariants.{DataBytes};
ghost use Rattle.core_state.specs.State.{Page, Flight, Core};
ghost use Rattle.core_state.specs.Contents.{contents, page_of, span_block};
ghost use Rattle.core_state.specs.Reach.{file_word, write_reach, covers};
ghost use Rattle.core_state.specs.PlainOf.{plain, outcome_of, has_stored};
ghost use Rattle.core_state.specs.Hold.{readable_seen, len_for};
ghost use Rattle.core_state.specs.Coherent.{Coherent};
ghost use Rattle.core_outcomes.specs.Known.{paged_bytes};
ghost use Rattle.span_bytes.specs.Spans.{page_in, over};
ghost use Rattle.call_answers.specs.Ends.{put_length, read_reply, EndsAs, Puts, Cuts};

/// How long a file is once bytes are put into it.
pub fn put_lengthens()
    ensures { (file bytes : List ℕ) (off : ℕ) → length (Put file off bytes) ≡ put_length (length file) off (length bytes) }
{}

/// What the plain machine replies to a call in flight that reads: of a `read`, so many bytes of the pages of its span, as many as its
/// owner knows that there are; of a `readl`, what its function gave.
pub fn reads_reply()
    ensures read { (c : Core) (lane : ℕ) (call : Flight) (name : List ℕ) (off n : ℕ) (pages : ℕ → Page) → Coherent c → c.calls lane ≡ Some call → call.claim.request.call ≡ Read name off n →
        ((i : ℕ) → i < call.claim.reach.pages → pages i ≡ page_of (contents c.blocks) (span_block c.places call.claim i)) →
        (answer (plain c) call.claim.request.call).reply ≡ DataBytes (paged_bytes pages (off % 4096) (unwrap_or (readable_seen call.claim (len_for c.names call.claim)) 0)) }
    ensures readl { (c : Core) (lane : ℕ) (call : Flight) (file function : List ℕ) (off n fuel cap : ℕ) (param : List ℕ) → Coherent c → c.calls lane ≡ Some call →
        call.claim.request.call ≡ Readl file off n function fuel cap param → (answer (plain c) call.claim.request.call).reply ≡ read_reply cap (outcome_of (plain c) call.claim.request.call) }
{}

/// What bytes leave in the pages of a call in flight that puts them: where the pages that they cover in part were gathered, and the bytes
/// are written over all of its pages, these are those of the file with the bytes put into it.
pub fn puts_land()
    ensures { (c : Core) (lane : ℕ) (call : Flight) (name bytes : List ℕ) (off len : ℕ) (old new : List Page) → Coherent c → c.calls lane ≡ Some call → file_word call.claim.request.call ≡ Some name →
        call.claim.reach ≡ write_reach off (length bytes) len →
        ((i : ℕ) → i < call.claim.reach.pages → covers call.claim.reach (call.claim.reach.first + i) ≡ false → page_in old i ≡ page_of (contents c.blocks) (span_block c.places call.claim i)) →
        ((i j : ℕ) → i < call.claim.reach.pages → j < 4096 → get_or (page_in new i) j 0 ≡ over (off % 4096) bytes (4096 * i + j) (get_or (page_in old i) j 0)) →
        (i j : ℕ) → i < call.claim.reach.pages → j < 4096 → get_or (page_in new i) j 0 ≡ get_or (Put (bytes_in (plain c) name) off bytes) (4096 * (call.claim.reach.first + i) + j) 0 }
{}

/// What a call in flight that puts bytes ends with: Answer's reply, and its file as Answer leaves it, where its pages are these.
pub fn puts_end()
    ensures { (c : Core) (lane : ℕ) (call : Flight) (name bytes : List ℕ) (off len : ℕ) (done reply : Reply) (new_len : ℕ) (old new : List Page) → Coherent c → c.calls lane ≡ Some call → file_word call.claim.request.call ≡ Some name →
        len ≡ len_for c.names call.claim → effect (plain c) call.claim.request.call ≡ stored (plain c) name (Put (bytes_in (plain c) name) off bytes) done → has_stored done ≡ true → call.claim.reach ≡ write_reach off (length bytes) len →
        ((i : ℕ) → i < call.claim.reach.pages → covers call.claim.reach (call.claim.reach.first + i) ≡ false → page_in old i ≡ page_of (contents c.blocks) (span_block c.places call.claim i)) →
        ((i : ℕ) (p : Page) → i < call.claim.reach.pages → call.gathered i ≡ Some p → page_in old i ≡ p) →
        Puts c call bytes off len done reply new_len old new → EndsAs c call reply new_len new }
{}

/// And one that sets a length.
pub fn cuts_end()
    ensures { (c : Core) (lane : ℕ) (call : Flight) (name : List ℕ) (n len : ℕ) (reply : Reply) (new_len : ℕ) (old new : List Page) → Coherent c → c.calls lane ≡ Some call → call.claim.request.call ≡ Trunc name n → len ≡ len_for c.names call.claim →
        ((i : ℕ) → i < call.claim.reach.pages → page_in old i ≡ page_of (contents c.blocks) (span_block c.places call.claim i)) →
        ((i : ℕ) (p : Page) → i < call.claim.reach.pages → call.gathered i ≡ Some p → page_in old i ≡ p) →
        Cuts c call n len reply new_len old new → EndsAs c call reply new_len new }
{}
