//! Laws: each is the contract of an empty function.
ghost use Rattle.std.specs.Prelude.{◌≡◌, ℕ, Bool, false, List};
ghost use Rattle.dispatcher.specs.declared.side.Side.{Side};
ghost use Rattle.core_lanes.specs.Actor.{Actor};
ghost use Rattle.core_lanes.specs.Event.TheVariants.{Copy, Take, FillIn, Evict, Demote, FlushIn};
ghost use Rattle.core_lanes.specs.Event.{Event};
ghost use Rattle.core_lanes.specs.State.{Core};
ghost use Rattle.core_lanes.specs.PlainOf.{plain};
ghost use Rattle.core_lanes.specs.Coherent.{Coherent};
ghost use Rattle.core_lanes.specs.Happens.{Happens};
ghost use Rattle.core_lanes.specs.Keeps.{Keeps};
ghost use Rattle.core_pages.specs.Inner.{answers_call};

/// A copy that goes keeps a core coherent.
pub fn evict_kept()
    ensures { (actor : Actor) (side : Side) (block : ℕ) → Keeps (Evict actor side block) }
{}

/// A copy that moves to the drive keeps a core coherent.
pub fn demote_kept()
    ensures { (actor : Actor) (block : ℕ) → Keeps (Demote actor block) }
{}

/// A page that goes to a shared call keeps a core coherent.
pub fn copy_kept()
    ensures { (actor : Actor) (lane i : ℕ) → Keeps (Copy actor lane i) }
{}

/// A page that goes to an exclusive call keeps a core coherent.
pub fn take_kept()
    ensures { (actor : Actor) (lane i : ℕ) → Keeps (Take actor lane i) }
{}

/// A die that comes home from a read keeps a core coherent.
pub fn fill_in_kept()
    ensures { (actor : Actor) (die : ℕ) (good : Bool) → Keeps (FillIn actor die good) }
{}

/// A die that comes home from the write of a block's page keeps a core coherent.
pub fn flush_in_kept()
    ensures { (actor : Actor) (die : ℕ) (good : Bool) (left : List ℕ) → Keeps (FlushIn actor die good left) }
{}

/// Every event other than Quick and End leaves the plain state as it is.
pub fn plain_kept()
    ensures { (c c2 : Core) (e : Event) → Coherent c → Happens c e c2 → answers_call e ≡ false → plain c2 ≡ plain c }
{}
