//! Laws: each is the contract of an empty function.
ghost use Rattle.std.specs.Prelude.{◌≡◌, ℕ};
ghost use Rattle.core_lanes.specs.Reply.{Reply};
ghost use Rattle.core_lanes.specs.Request.{Request};
ghost use Rattle.core_lanes.specs.Plain.{answer};
ghost use Rattle.core_lanes.specs.Event.TheVariants.{Quick};
ghost use Rattle.core_lanes.specs.State.{Core};
ghost use Rattle.core_lanes.specs.PlainOf.{plain};
ghost use Rattle.core_lanes.specs.Coherent.{Coherent};
ghost use Rattle.core_lanes.specs.Happens.{Happens};
ghost use Rattle.core_lanes.specs.Keeps.{Keeps};

/// A call that is answered at once keeps a core coherent.
pub fn quick_kept()
    ensures { (lane : ℕ) (request : Request) (reply : Reply) → Keeps (Quick lane request reply) }
{}

/// A call that is answered at once moves the plain state as the plain machine says of it.
pub fn quick_moves()
    ensures { (lane : ℕ) (request : Request) (reply : Reply) (c c2 : Core) → Coherent c → Happens c (Quick lane request reply) c2 →
        plain c2 ≡ (answer (plain c) request.call).state }
{}
