//! Each method of `Pair` is one change of a state that keeps, for each block, its copies, flags and version, and the
//! three orders beside. The laws hold for all such states, and the functions here do nothing.
ghost use Rattle.std.specs.Prelude.{◌≡◌, ◌≢◌, ℕ, ◌<◌, if◌then◌else◌, Bool, List, [], Some, None, true, false};
ghost use Rattle.index_lists.specs.Words.{put, without, last};
ghost use Rattle.dispatcher.specs.declared.side.Side.{Side};
ghost use Rattle.coherence.specs.Paired.{Paired, by_side, other, none_yet};
ghost use Rattle.coherence.specs.Changes.{copied, taken, installed, filled, put_back_at, evicted, demoted, flushed_in, released, started};
ghost use Rattle.coherence.specs.Agree.{Cell, copy_in, with_copy, written_cell, released_cell, Agrees};

/// Two new caches have the cells of blocks that nothing has happened to, and empty orders.
pub fn new_agrees()
    ensures { (host drive n : ℕ) →
        Agrees (none_yet host drive n) n (λ b. record { host = None; drive = None; clean = true; written = false; version = 0 }) [] [] [] }
{}

/// A copy that is read at its own side goes last there; no cell changes.
pub fn copy_here_agrees()
    ensures { (side : Side) (s : Paired) (n b : ℕ) (page : List ℕ) (cells : ℕ → Cell) (ho dr un : List ℕ) → b < n →
        Agrees s n cells ho dr un → copy_in side (cells b) ≡ Some page →
        Agrees (copied side s b) n cells (by_side side (last b ho) ho) (by_side side dr (last b dr)) un }
{}

/// A copy that the other side alone has is put in here too, and goes last at both sides.
pub fn copy_there_agrees()
    ensures { (side : Side) (s : Paired) (n b : ℕ) (page : List ℕ) (cells : ℕ → Cell) (ho dr un : List ℕ) → b < n →
        Agrees s n cells ho dr un → copy_in side (cells b) ≡ None → copy_in (other side) (cells b) ≡ Some page →
        Agrees (copied side s b) n
        (put cells b (with_copy side (Some page) (cells b))) (last b ho) (last b dr) un }
{}

/// Reading a block without a copy changes nothing.
pub fn copy_blank_agrees()
    ensures { (side : Side) (s : Paired) (n b : ℕ) (cells : ℕ → Cell) (ho dr un : List ℕ) → b < n →
        Agrees s n cells ho dr un → (cells b).host ≡ None → (cells b).drive ≡ None →
        Agrees (copied side s b) n cells ho dr un }
{}

/// A block that is lent loses its copies and leaves all orders.
pub fn take_agrees()
    ensures { (s : Paired) (n b : ℕ) (cells : ℕ → Cell) (ho dr un : List ℕ) → b < n →
        Agrees s n cells ho dr un →
        Agrees (taken s b) n
        (put cells b (record (cells b) { host = None; drive = None })) (without b ho) (without b dr) (without b un) }
{}

/// A block that is written has one copy, goes last there and in the unclean order, and has a new version.
pub fn install_agrees()
    ensures { (side : Side) (s : Paired) (n b : ℕ) (page : List ℕ) (cells : ℕ → Cell) (ho dr un : List ℕ) → b < n →
        Agrees s n cells ho dr un →
        Agrees (installed side s b page) n
        (put cells b (written_cell side page (cells b))) (by_side side (last b ho) (without b ho)) (by_side side (without b dr) (last b dr)) (last b un) }
{}

/// A lent page goes back at a side; an unclean block goes last in the unclean order.
pub fn put_back_agrees()
    ensures { (side : Side) (s : Paired) (n b : ℕ) (page : List ℕ) (cells : ℕ → Cell) (ho dr un : List ℕ) → b < n →
        Agrees s n cells ho dr un →
        Agrees (put_back_at side s b page) n
        (put cells b (with_copy side (Some page) (cells b))) (by_side side (last b ho) ho) (by_side side dr (last b dr)) (if (cells b).clean then un else last b un) }
{}

/// A page that was read goes in at a side, and goes last there.
pub fn fill_agrees()
    ensures { (side : Side) (s : Paired) (n b : ℕ) (page : List ℕ) (cells : ℕ → Cell) (ho dr un : List ℕ) → b < n →
        Agrees s n cells ho dr un →
        Agrees (filled side s b page) n
        (put cells b (with_copy side (Some page) (cells b))) (by_side side (last b ho) ho) (by_side side dr (last b dr)) un }
{}

/// A copy that is evicted leaves its side; the block keeps its place in the unclean order.
pub fn evict_agrees()
    ensures { (side : Side) (s : Paired) (n b : ℕ) (cells : ℕ → Cell) (ho dr un : List ℕ) → b < n →
        Agrees s n cells ho dr un →
        Agrees (evicted side s b) n
        (put cells b (with_copy side None (cells b))) (by_side side (without b ho) ho) (by_side side dr (without b dr)) un }
{}

/// A copy that is demoted leaves the host and goes last in the drive; the block keeps its place in the unclean order.
pub fn demote_agrees()
    ensures { (s : Paired) (n b : ℕ) (page : List ℕ) (cells : ℕ → Cell) (ho dr un : List ℕ) → b < n →
        Agrees s n cells ho dr un →
        Agrees (demoted s b page) n
        (put cells b (record (cells b) { host = None; drive = Some page })) (without b ho) (last b dr) un }
{}

/// A write of the current version that succeeded makes the block written and clean.
pub fn flush_in_agrees()
    ensures { (s : Paired) (n b version : ℕ) (cells : ℕ → Cell) (ho dr un : List ℕ) → b < n →
        Agrees s n cells ho dr un → version ≡ (cells b).version →
        Agrees (flushed_in s b version true) n
        (put cells b (record (cells b) { clean = true; written = true })) ho dr (without b un) }
{}

/// A write that failed, or of an older version, changes nothing.
pub fn flush_in_too_late_agrees()
    ensures { (s : Paired) (n b version : ℕ) (written : Bool) (cells : ℕ → Cell) (ho dr un : List ℕ) → b < n →
        Agrees s n cells ho dr un → (written ≡ true → version ≢ (cells b).version) →
        Agrees (flushed_in s b version written) n cells ho dr un }
{}

/// A block that is released or allocated has no copy, leaves all orders, is clean and unwritten, and has a new version.
pub fn release_agrees()
    ensures { (s : Paired) (n b : ℕ) (cells : ℕ → Cell) (ho dr un : List ℕ) → b < n →
        Agrees s n cells ho dr un →
        Agrees (released s b) n
        (put cells b (released_cell (cells b))) (without b ho) (without b dr) (without b un) }
{}

/// Of a block that starts as written that alone changes.
pub fn start_written_agrees()
    ensures { (s : Paired) (n b : ℕ) (cells : ℕ → Cell) (ho dr un : List ℕ) → b < n →
        Agrees s n cells ho dr un →
        Agrees (started s b) n (put cells b (record (cells b) { written = true })) ho dr un }
{}
