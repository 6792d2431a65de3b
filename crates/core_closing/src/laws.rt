//! Laws, each the contract of a function that takes and gives nothing.
ghost use Rattle.std.specs.Prelude.{◌≡◌, ◌∷◌, ◌++◌, ℕ, List, []};
ghost use Rattle.core_state.specs.declared.actor.Actor.TheVariants.{Closer};
ghost use Rattle.core_state.specs.declared.event.Event.{Event};
ghost use Rattle.core_state.specs.State.{Page, Core};
ghost use Rattle.core_state.specs.Coherent.{Coherent};
ghost use Rattle.core_state.specs.Happens.{HoldsNone, IsClosing, CoreRun};
ghost use Rattle.core_solo.specs.Solo.{IsStored};
ghost use Rattle.core_solo.specs.Stored.{IsOfDrive, IsAllStored};
ghost use Rattle.core_closing.specs.Kept.{KeepsStored, IsStoredSoFar, IsFailedWrite};

/// Once every lane has left and no call is in flight, that stays so whatever happens; and once no block is unclean, whatever flushers and
/// the closer do, the drive's meta data, the flags of its blocks and the pages of the meta data that were written stay as they are. So what
/// was all stored stays stored.
pub fn closing_kept()
    ensures closing { (c d : Core) (es : List Event) → Coherent c → IsClosing c → CoreRun c es d → IsClosing d }
    ensures clean { (c d : Core) (es : List Event) → Coherent c → IsClosing c → HoldsNone c Closer → c.unclean ≡ [] → CoreRun c es d →
        KeepsStored c d }
    ensures so_far { (encode : Core → ℕ → Page) (c d : Core) (es : List Event) → IsOfDrive encode → Coherent c → IsClosing c → HoldsNone c Closer →
        IsStoredSoFar encode c → CoreRun c es d → d.closer ≡ c.closer → IsStoredSoFar encode d }
    ensures stored { (encode : Core → ℕ → Page) (c d : Core) (es : List Event) → IsOfDrive encode → Coherent c → IsClosing c → HoldsNone c Closer →
        IsStored c → IsAllStored encode c → CoreRun c es d → IsAllStored encode d }
{}

/// Before the closer has written a page of the meta data, there is none that is wrong.
pub fn sync_begins()
    ensures { (encode : Core → ℕ → Page) (c : Core) → c.closer ≡ 0 → IsStoredSoFar encode c }
{}

/// Once no block is unclean and the closer has written all pages of the meta data, each the core's, all is stored.
pub fn sync_done()
    ensures { (encode : Core → ℕ → Page) (c : Core) → Coherent c → IsClosing c → IsStoredSoFar encode c → IsStored c → IsAllStored encode c }
{}

/// Where all is stored, the last event was no write of the closer that had failed.
pub fn sync_unfailed()
    ensures { (c d : Core) (es : List Event) (e : Event) → Coherent c → IsClosing c → HoldsNone c Closer → CoreRun c (es ++ e ∷ []) d → IsFailedWrite e →
        IsStored d → ⊥ }
{}
