//! Laws: each is the contract of an empty function.
ghost use Rattle.std.specs.Prelude.{ℕ, Bool, List};
ghost use Rattle.dispatcher.specs.declared.side.Side.{Side};
ghost use Rattle.core_lemmas.specs.Actor.{Actor};
ghost use Rattle.core_lemmas.specs.Purpose.{Purpose};
ghost use Rattle.core_lemmas.specs.Request.{Request};
ghost use Rattle.core_lemmas.specs.Event.{Event};
ghost use Rattle.core_lemmas.specs.Event.TheVariants.{Enter, Leave, Skip, Begin, DieOut, Submit, Fetch, Report, FlushOut, MetaIn};
ghost use Rattle.core_lemmas.specs.State.{Core};
ghost use Rattle.core_lemmas.specs.Coherent.{Coherent};
ghost use Rattle.core_lemmas.specs.Happens.{Happens};
ghost use Rattle.core_lanes.specs.Keeps.{Keeps};

/// A lane that enters keeps a core coherent.
pub fn enter_kept()
    ensures { (lane : ℕ) → Keeps (Enter lane) }
{}

/// A lane that leaves keeps a core coherent.
pub fn leave_kept()
    ensures { (lane : ℕ) → Keeps (Leave lane) }
{}

/// A call that is skipped keeps a core coherent.
pub fn skip_kept()
    ensures { (lane : ℕ) (request : Request) (fault : Bool) → Keeps (Skip lane request fault) }
{}

/// A call that goes into the drive's queue keeps a core coherent.
pub fn submit_kept()
    ensures { (lane : ℕ) → Keeps (Submit lane) }
{}

/// A worker that takes a call keeps a core coherent.
pub fn fetch_kept()
    ensures { (worker lane : ℕ) → Keeps (Fetch worker lane) }
{}

/// A worker that hands a call back keeps a core coherent.
pub fn report_kept()
    ensures { (worker lane : ℕ) → Keeps (Report worker lane) }
{}

/// A call that begins keeps a core coherent.
pub fn begin_kept()
    ensures { (lane : ℕ) (request : Request) (side : Side) → Keeps (Begin lane request side) }
{}

/// A die that goes out, to read a page or to write a page of the meta data, keeps a core coherent.
pub fn die_out_kept()
    ensures { (actor : Actor) (die : ℕ) (purpose : Purpose) → Keeps (DieOut actor die purpose) }
{}

/// A die that goes out to write a block's page keeps a core coherent.
pub fn flush_out_kept()
    ensures { (actor : Actor) (die block : ℕ) → Keeps (FlushOut actor die block) }
{}

/// A die that comes home from the write of a page of the meta data keeps a core coherent.
pub fn meta_in_kept()
    ensures { (actor : Actor) (die : ℕ) (good : Bool) (left : List ℕ) → Keeps (MetaIn actor die good left) }
{}
