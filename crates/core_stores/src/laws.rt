//! Laws: each is the contract of an empty function.
ghost use Rattle.std.specs.Prelude.{ℕ, ◌≡◌, true, false, List, [], ◌∷◌};
ghost use Rattle.core_hold.specs.Reply.{Reply};
ghost use Rattle.core_hold.specs.Request.{Request};
ghost use Rattle.core_hold.specs.PlainFilesHistory.{Legal};
ghost use Rattle.core_hold.specs.Plain.{answer};
ghost use Rattle.core_hold.specs.Event.{Event};
ghost use Rattle.core_hold.specs.PlainOf.{plain};
ghost use Rattle.core_hold.specs.History.{calls_of};
ghost use Rattle.core_hold.specs.Event.TheVariants.{End};
ghost use Rattle.core_hold.specs.State.{Core};
ghost use Rattle.core_hold.specs.PageEvents.{flight_at};
ghost use Rattle.core_hold.specs.EndEvent.{has_changed};
ghost use Rattle.core_hold.specs.Coherent.{Coherent};
ghost use Rattle.core_hold.specs.Happens.{Happens, CoreRun};

/// A call that ends and has stored keeps a core coherent.
pub fn storing_end_kept()
    ensures { (lane : ℕ) (request : Request) (reply : Reply) (c c2 : Core) → Coherent c → Happens c (End lane request reply) c2 →
        (c.lanes lane).mark ≡ false → has_changed (flight_at c.calls lane) reply ≡ true → Coherent c2 }
{}

/// A call that ends keeps a core coherent, whatever it did.
pub fn end_kept()
    ensures { (lane : ℕ) (request : Request) (reply : Reply) (c c2 : Core) → Coherent c → Happens c (End lane request reply) c2 → Coherent c2 }
{}

/// A call that ends without a mark moves the plain state as the plain machine says of it: bytes that it stores are where the plain machine
/// has them, and no other byte of any file changes. One with a mark leaves the plain state.
pub fn end_moves()
    ensures moves { (lane : ℕ) (request : Request) (reply : Reply) (c c2 : Core) → Coherent c → Happens c (End lane request reply) c2 →
        (c.lanes lane).mark ≡ false → plain c2 ≡ (answer (plain c) request.call).state }
    ensures marked { (lane : ℕ) (request : Request) (reply : Reply) (c c2 : Core) → Coherent c → Happens c (End lane request reply) c2 →
        (c.lanes lane).mark ≡ true → plain c2 ≡ plain c }
{}

/// Each event is legal on plain files: it moves the plain state as the plain machine says of the call that it ends, with that reply; one
/// that ends no call, or ends it by `fault` or `nomemory`, leaves the plain state.
pub fn event_legal()
    ensures { (c c2 : Core) (e : Event) → Coherent c → Happens c e c2 → Legal (plain c) (calls_of (e ∷ [])) (plain c2) }
{}

/// Every list of events leads from a coherent core to a coherent one.
pub fn coherent_kept()
    ensures { (c0 c1 : Core) (events : List Event) → Coherent c0 → CoreRun c0 events c1 → Coherent c1 }
{}

/// The calls of a run from a coherent core are legal on plain files: from its first plain state to its last.
pub fn calls_legal()
    ensures { (c0 c1 : Core) (events : List Event) → Coherent c0 → CoreRun c0 events c1 → Legal (plain c0) (calls_of events) (plain c1) }
{}
