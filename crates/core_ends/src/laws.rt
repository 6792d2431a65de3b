//! Laws: each is the contract of an empty function.
ghost use Rattle.std.specs.Prelude.{◌≡◌, ℕ};
ghost use Rattle.core_quick.specs.Reply.{Reply};
ghost use Rattle.core_quick.specs.Request.{Request};
ghost use Rattle.core_quick.specs.Event.TheVariants.{End};
ghost use Rattle.core_quick.specs.PlainOf.{plain};
ghost use Rattle.core_quick.specs.State.{Core};
ghost use Rattle.core_quick.specs.Coherent.{Coherent};
ghost use Rattle.core_quick.specs.Happens.{Happens};
ghost use Rattle.core_ends.specs.Stores.{StoresNothing};

/// A call that ends and stores nothing keeps a core coherent: one with a mark, one that only reads, and one that did not succeed.
pub fn plain_end_kept()
    ensures { (lane : ℕ) (request : Request) (reply : Reply) (c c2 : Core) → Coherent c → Happens c (End lane request reply) c2 →
        StoresNothing c lane reply → Coherent c2 }
{}

/// And it leaves the plain state as it is.
pub fn plain_end_stays()
    ensures { (lane : ℕ) (request : Request) (reply : Reply) (c c2 : Core) → Coherent c → Happens c (End lane request reply) c2 →
        StoresNothing c lane reply → plain c2 ≡ plain c }
{}
