//! Laws: each is the contract of an empty function.
ghost use Rattle.std.specs.Prelude.{◌≡◌, ℕ, [], Option, Some};
ghost use Rattle.core_state.specs.declared.actor.Actor.{Actor};
ghost use Rattle.core_state.specs.declared.event.Event.TheVariants.{DieOut};
ghost use Rattle.core_state.specs.declared.event.Purpose.TheVariants.{Meta};
ghost use Rattle.core_state.specs.State.{Page, Shared, Exclusive, Flight, Core};
ghost use Rattle.core_state.specs.Contents.{span_block};
ghost use Rattle.core_state.specs.DieEvents.{MayMeta};
ghost use Rattle.core_solo.specs.Solo.{gather_event, sync_event};
ghost use Rattle.system_state.specs.declared.errand.Errand.{Errand};
ghost use Rattle.system_pages.specs.Ways.{way};
ghost use Rattle.system_pages.specs.Events.{copy_event, take_event, way_gone};
ghost use Rattle.system_metas.specs.Encode.{encode};

use flash_die::Die;

/// The event by which a turn gathers a page is the one that the run of one thread makes for it; and so is that in which a page of the meta
/// data goes out, where no block is unclean.
pub fn turns_are_next<D: Die>()
    ensures copies { (c : Core) (actor : Actor) (lane i : ℕ) (call : Flight) (x : Option (Errand D)) → c.calls lane ≡ Some call → call.claim.reach.mode ≡ Shared →
        way c lane i ≡ way_gone x → copy_event actor lane i x ≡ gather_event c actor lane call i (span_block c.places call.claim i) }
    ensures takes { (c : Core) (actor : Actor) (lane i : ℕ) (call : Flight) (x : Option (Errand D)) → c.calls lane ≡ Some call → call.claim.reach.mode ≡ Exclusive →
        way c lane i ≡ way_gone x → take_event actor lane i x ≡ gather_event c actor lane call i (span_block c.places call.claim i) }
    ensures metas { (c : Core) (actor : Actor) (die i : ℕ) (page : Page) → MayMeta c actor die i page → c.unclean ≡ [] → page ≡ encode c i →
        sync_event encode c actor i ≡ Some (DieOut actor die (Meta i page)) }
{}
