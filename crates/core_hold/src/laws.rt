//! Laws: each is the contract of an empty function.
ghost use Rattle.std.specs.Prelude.{◌≡◌, ℕ, Bool, List};
ghost use Rattle.dispatcher.specs.declared.side.Side.{Side};
ghost use Rattle.core_quick.specs.Request.{Request};
ghost use Rattle.core_quick.specs.Reply.{Reply};
ghost use Rattle.core_quick.specs.Actor.{Actor};
ghost use Rattle.core_quick.specs.Event.TheVariants.{Enter, Leave, Quick, Skip, Begin, Submit, Fetch, DieOut, End, FlushOut, FillIn, FlushIn, MetaIn, Copy, Take, Evict, Demote};
ghost use Rattle.core_quick.specs.Event.{Event};
ghost use Rattle.core_quick.specs.Purpose.{Purpose};
ghost use Rattle.core_quick.specs.State.{Gone, Core};
ghost use Rattle.core_quick.specs.Happens.{Happens};
ghost use Rattle.core_hold.specs.Keeps.{KeepsHolds, HandsBack, HoldsAfter};

/// A lane that enters leaves what the others hold.
pub fn enter_holds()
    ensures { (lane : ℕ) → KeepsHolds (Enter lane) }
{}

/// A lane that leaves leaves what the others hold.
pub fn leave_holds()
    ensures { (lane : ℕ) → KeepsHolds (Leave lane) }
{}

/// A call that is skipped leaves what the others hold.
pub fn skip_holds()
    ensures { (lane : ℕ) (request : Request) (fault : Bool) → KeepsHolds (Skip lane request fault) }
{}

/// A call that begins leaves what the others hold.
pub fn begin_holds()
    ensures { (lane : ℕ) (request : Request) (side : Side) → KeepsHolds (Begin lane request side) }
{}

/// A call that goes into the drive's queue leaves what the others hold.
pub fn submit_holds()
    ensures { (lane : ℕ) → KeepsHolds (Submit lane) }
{}

/// A worker that takes a call leaves what the others hold, the call's lane too.
pub fn fetch_holds()
    ensures { (worker lane : ℕ) → KeepsHolds (Fetch worker lane) }
{}

/// A worker that hands a call back adds what it had of it to what the call's lane holds, and leaves the rest.
pub fn report_hands_back()
    ensures { (worker lane : ℕ) → HandsBack worker lane }
{}

/// A page that a call shares leaves what the others hold.
pub fn copy_holds()
    ensures { (actor : Actor) (lane i : ℕ) → KeepsHolds (Copy actor lane i) }
{}

/// A page that a call has alone leaves what the others hold.
pub fn take_holds()
    ensures { (actor : Actor) (lane i : ℕ) → KeepsHolds (Take actor lane i) }
{}

/// A copy that goes leaves what the others hold.
pub fn evict_holds()
    ensures { (actor : Actor) (side : Side) (block : ℕ) → KeepsHolds (Evict actor side block) }
{}

/// A copy that moves from the host to the drive leaves what the others hold.
pub fn demote_holds()
    ensures { (actor : Actor) (block : ℕ) → KeepsHolds (Demote actor block) }
{}

/// A die that goes out, to read a page or to write a page of the meta data, leaves what the others hold.
pub fn die_out_holds()
    ensures { (actor : Actor) (die : ℕ) (purpose : Purpose) → KeepsHolds (DieOut actor die purpose) }
{}

/// A die that goes out to write a block's page leaves what the others hold.
pub fn flush_out_holds()
    ensures { (actor : Actor) (die block : ℕ) → KeepsHolds (FlushOut actor die block) }
{}

/// A die that comes home from a read leaves what the others hold.
pub fn fill_in_holds()
    ensures { (actor : Actor) (die : ℕ) (good : Bool) → KeepsHolds (FillIn actor die good) }
{}

/// A die that comes home from the write of a block's page leaves what the others hold.
pub fn flush_in_holds()
    ensures { (actor : Actor) (die : ℕ) (good : Bool) (left : List ℕ) → KeepsHolds (FlushIn actor die good left) }
{}

/// A die that comes home from the write of a page of the meta data leaves what the others hold.
pub fn meta_in_holds()
    ensures { (actor : Actor) (die : ℕ) (good : Bool) (left : List ℕ) → KeepsHolds (MetaIn actor die good left) }
{}

/// A call that is answered at once leaves what the others hold.
pub fn quick_holds()
    ensures { (lane : ℕ) (request : Request) (reply : Reply) → KeepsHolds (Quick lane request reply) }
{}

/// A call that ends leaves what the others hold.
pub fn end_holds()
    ensures { (lane : ℕ) (request : Request) (reply : Reply) → KeepsHolds (End lane request reply) }
{}

/// What an actor holds, it holds until its own next event: from a coherent core an event of one actor leaves what every other actor holds,
/// but a Report adds to what the call's lane holds what belonged to the worker. A lane that has left stays so under every event.
pub fn hold_kept()
    ensures holds { (e : Event) → HoldsAfter e }
    ensures gone { (c c2 : Core) (e : Event) (lane : ℕ) → Happens c e c2 → (c.lanes lane).stage ≡ Gone → (c2.lanes lane).stage ≡ Gone }
{}
