//! Calls begin, or are answered at once.
ghost use Rattle.std.specs.Prelude.{◌≡◌, ◌≤◌, ◌<◌, ◌+◌, ◌-◌, ◌^◌, ◌⊎◌, ℕ, IfOk, IfErr, Some, None, true, false, Err};
ghost use Rattle.coherence.specs.Paired.{flags_at};
ghost use Rattle.plain_files.specs.Plain.{answer};
ghost use Rattle.core_state.specs.declared.actor.Actor.TheVariants.{Lane};
ghost use Rattle.core_state.specs.declared.event.Event.TheVariants.{Quick};
ghost use Rattle.core_state.specs.Reach.{is_data, is_sync};
ghost use Rattle.core_state.specs.PlainOf.{plain};
ghost use Rattle.core_state.specs.LaneEvents.{IsIdle, is_quick};
ghost use Rattle.core_state.specs.Happens.{HoldsNone};
ghost use Rattle.system_state.specs.Cores.{core_of};
ghost use Rattle.system_state.specs.Made.{Made};
ghost use Rattle.system_state.specs.Stands.{IsStanding};
ghost use Rattle.system_state.specs.declared.not_yet.NotYet.TheVariants.{NoRoom};
ghost use Rattle.system_quick.specs.Begun.{side_of};
ghost use Rattle.system_quick.specs.Ways.{begin_way, way_of, begin_event, IsNext};
ghost use Rattle.system_quick.specs.Tables.{IsDecoded};
ghost use Rattle.system_quick.specs.Waits.{quick_waits};
ghost use Rattle.lambda_system.specs.Events.{Extends};

use crate::system::System;
use dispatcher::Side;
use flash_die::Die;
use plain_files::{Numbered, Request};
use system_quick::{Begun, Loading};
use system_state::{CallJob, NotYet};

impl<D: Die, J: CallJob> System<D, J> {
    /// A call that needs no page is answered at once, with the next number. In this order: it waits for the call that it awaits
    /// (`Awaited`), is refused, or waits for the least call in flight that is in its way: one that holds the file of a `remove`, or of a
    /// `seal` that changes the state (`Conflict`), or that uses the function of an `unload` (`FnInUse`). Nothing has changed where it
    /// waits. `loading` is what the bytes of a `load` spell.
    pub fn try_quick(
        &mut self,
        lane: u32,
        request: &Request,
        loading: &mut Loading,
    ) -> Result<Numbered, NotYet>
        requires standing { IsStanding D.seen J.suits self.old.state }
        requires hands { HoldsNone (core_of D.seen self.old.state) (Lane lane) }
        requires idle { IsIdle (core_of D.seen self.old.state) lane }
        requires unmarked { ((core_of D.seen self.old.state).lanes lane).mark ≡ false }
        requires kind { is_quick request.now.call ≡ true }
        requires decoded { IsDecoded request.now.call loading.old }
        requires last { self.old.state.last ≤ 2 ^ 64 - 3 }
        requires versions { (b : ℕ) → b < self.old.state.sizes.blocks → (flags_at self.old.state.pair b).version ≤ 2 ^ 64 - 3 }
        ensures clear { IfOk result (λ x. quick_waits (core_of D.seen self.old.state) request.now ≡ None) }
        ensures number { IfOk result (λ x. x.number ≡ self.old.state.last + 1) }
        ensures reply { IfOk result (λ x. x.reply ≡ (answer (plain (core_of D.seen self.old.state)) request.now.call).reply) }
        ensures made { IfOk result (λ x. Made D.seen J.suits self.old.state (Quick lane request.now x.reply) self.new.state) }
        ensures stands { IfOk result (λ x. Extends D.seen J.suits self.old.state (Quick lane request.now x.reply) self.new.state) }
        ensures not_yet { IfErr result (λ y. quick_waits (core_of D.seen self.old.state) request.now ≡ Some y) }
        ensures same { IfErr result (λ y. (self.new.state ≡ self.old.state) × (loading.new ≡ loading.old)) }
    {
        system_quick::try_quick(&mut self.state, lane, request, loading)
    }

    /// A data call or a `sync` is to begin. In this order: it waits for the call that it awaits (`Awaited`), is refused and has ended,
    /// waits for the least call that is in its way (`Conflict`) or for room at its side (`NoRoom`), or begins. Nothing has changed where
    /// it waits. `picked` is the side of a call that nothing refuses and that awaits none.
    pub fn try_begin(
        &mut self,
        lane: u32,
        request: &Request,
        picked: &mut Side,
    ) -> Result<Begun, NotYet>
        requires standing { IsStanding D.seen J.suits self.old.state }
        requires hands { HoldsNone (core_of D.seen self.old.state) (Lane lane) }
        requires idle { IsIdle (core_of D.seen self.old.state) lane }
        requires unmarked { ((core_of D.seen self.old.state).lanes lane).mark ≡ false }
        requires kind { (is_data request.now.call ≡ true) ⊎ (is_sync request.now.call ≡ true) }
        requires last { self.old.state.last ≤ 2 ^ 64 - 3 }
        requires host { self.old.state.places.host ≤ 2 ^ 64 - 3 }
        requires drive { self.old.state.places.drive ≤ 2 ^ 64 - 3 }
        ensures way { way_of result ≡ begin_way (core_of D.seen self.old.state) request.now }
        ensures number { IfOk result (λ x. IsNext self.old.state.last x) }
        ensures made { IfOk result (λ x. Made D.seen J.suits self.old.state (begin_event lane request.now x) self.new.state) }
        ensures stands { IfOk result (λ x. Extends D.seen J.suits self.old.state (begin_event lane request.now x) self.new.state) }
        ensures picked { (used need : ℕ) → result ≡ Err (NoRoom used need) → picked.new ≡ side_of (core_of D.seen self.old.state) request.now }
        ensures same { IfErr result (λ y. self.new.state ≡ self.old.state) }
    {
        system_quick::try_begin(&mut self.state, lane, request, picked)
    }
}
