//! Laws: each is the contract of an empty function.
ghost use Rattle.std.specs.Prelude.{◌≡◌, ℕ, true, None};
ghost use Rattle.plain_files.specs.declared.calls.Request.{Request};
ghost use Rattle.plain_files.specs.Plain.{early};
ghost use Rattle.core_state.specs.State.{Core};
ghost use Rattle.core_state.specs.PlainOf.{plain};
ghost use Rattle.core_state.specs.Reach.{claim_for};
ghost use Rattle.core_solo.specs.Solo.{is_wanting, solo_side};
ghost use Rattle.system_state.specs.declared.not_yet.NotYet.TheVariants.{NoRoom};
ghost use Rattle.page_steps.specs.Begun.{side_of};
ghost use Rattle.page_steps.specs.Ways.{Waits, begin_way};

/// A call that waits for room is one that the run of one thread makes room for: nothing refuses it, and frames are wanting at its side.
pub fn waiting_wants_room()
    ensures { (c : Core) (request : Request) (used need : ℕ) → begin_way c request ≡ Waits (NoRoom used need) →
        (early (plain c) request.call ≡ None) × (side_of c request ≡ solo_side c request) × (is_wanting c (claim_for c.names.files request (solo_side c request)) ≡ true) }
{}
