//! Pages of calls are gathered, and copies give way.
ghost use Rattle.std.specs.Prelude.{◌≡◌, ◌+◌, ◌-◌, ◌^◌, ◌<◌, ◌≤◌, [], ℕ, IfOk, IfErr, IfSome, Some, None, true, false, is_some, length, nat_lt};
ghost use Rattle.std.specs.List.{find};
ghost use Rattle.core_state.specs.declared.actor.Actor.TheVariants.{Closer};
ghost use Rattle.core_state.specs.declared.event.Event.TheVariants.{Evict, Demote};
ghost use Rattle.core_state.specs.State.{Flight, Shared, Exclusive, ToFill};
ghost use Rattle.core_state.specs.Contents.{span_block, contents, page_of};
ghost use Rattle.core_state.specs.PageEvents.{flight_at, IsToGather, is_spare, is_demotable, order_at};
ghost use Rattle.core_state.specs.Happens.{HoldsNone, IsClosing};
ghost use Rattle.system_state.specs.Cores.{core_of};
ghost use Rattle.system_state.specs.Made.{Made};
ghost use Rattle.system_state.specs.Stands.{IsStanding};
ghost use Rattle.system_state.specs.Errands.{WentOut, succeeded};
ghost use Rattle.system_state.specs.declared.not_yet.NotYet.TheVariants.{DieBusy, NoVictim};
ghost use Rattle.system_pages.specs.Ways.{way};
ghost use Rattle.system_pages.specs.Events.{copy_event, take_event, way_gone};
ghost use Rattle.system_pages.specs.Back.{FillBack, fill_in_event};
ghost use Rattle.system_pages.specs.Idle.{drive_used, demote_refusal};
ghost use Rattle.system_pages.specs.declared.ways.Way.TheVariants.{Busy};
ghost use Rattle.lambda_system.specs.Events.{Extends, ExtendsMaybeOut, ExtendsHome, errand_in};

use crate::system::System;
use core_state::Actor;
use dispatcher::Side;
use flash_die::Die;
use page_base::Page;
use system_state::{CallJob, Errand, NotYet};

/// How a page of a span is got.
#[derive(Drop)]
pub enum Step<D> {
    /// It was at hand.
    Page,
    /// It is read by this die.
    Errand(Errand<D>),
}

fn step_of<D: Drop>(errand: Option<Errand<D>>) -> Step<D>
    ensures { errand_in result ≡ errand }
{
    match errand {
        None => Step::Page,
        Some(errand) => Step::Errand(errand),
    }
}

impl<D: Die, J: CallJob> System<D, J> {
    /// A call that shares its pages gathers the page at place `i` of its span, from 0. `Step::Page`: `into` is a copy of it; it was in a
    /// cache, or is zeros that nobody has. `Step::Errand`: it is written and in neither cache, and its die goes out to read it.
    /// `NotYet::DieBusy`: it must be read, and its die is out. `into` changes with `Step::Page` alone.
    pub fn try_copy(
        &mut self,
        actor: Actor,
        lane: u32,
        i: u32,
        into: &mut Page,
    ) -> Result<Step<D>, NotYet>
        requires standing { IsStanding D.seen J.suits self.old.state }
        requires hands { HoldsNone (core_of D.seen self.old.state) actor }
        requires wants { (call : Flight) × IsToGather (core_of D.seen self.old.state).calls (core_of D.seen self.old.state).lanes actor lane i call × (call.claim.reach.mode ≡ Shared) }
        ensures way { IfOk result (λ x. way (core_of D.seen self.old.state) lane i ≡ way_gone (errand_in x)) }
        ensures page { IfOk result (λ x. errand_in x ≡ None → into.new ≡ page_of (contents (core_of D.seen self.old.state).blocks) (span_block (core_of D.seen self.old.state).places (flight_at (core_of D.seen self.old.state).calls lane).claim i)) }
        ensures kept { IfOk result (λ x. is_some (errand_in x) ≡ true → into.new ≡ into.old) }
        ensures block { IfOk result (λ x. IfSome (errand_in x) (λ e. span_block (core_of D.seen self.old.state).places (flight_at (core_of D.seen self.old.state).calls lane).claim i ≡ Some e.subject)) }
        ensures out { IfOk result (λ x. IfSome (errand_in x) (λ e. WentOut D.seen actor (ToFill lane i) (self.old.state.sizes.meta + e.subject) e self.new.state)) }
        ensures made { IfOk result (λ x. Made D.seen J.suits self.old.state (copy_event actor lane i (errand_in x)) self.new.state) }
        ensures stands { IfOk result (λ x. ExtendsMaybeOut D.seen J.suits self.old.state (copy_event actor lane i (errand_in x)) self.new.state (errand_in x)) }
        ensures not_yet { IfErr result (λ y. (d : ℕ) × (way (core_of D.seen self.old.state) lane i ≡ Busy d) × (y ≡ DieBusy d)) }
        ensures same { IfErr result (λ y. (self.new.state ≡ self.old.state) × (into.new ≡ into.old)) }
    {
        let errand = system_pages::try_copy(&mut self.state, actor, lane, i, into)?;
        Ok(step_of(errand))
    }

    /// A call that has its pages alone gathers the page at place `i` of its span, from 0. `Step::Page`: `page` is it; no cache has it any
    /// more, or it is zeros that nobody has. `Step::Errand`: it is written and in neither cache, and its die goes out to read it.
    /// `NotYet::DieBusy`: it must be read, and its die is out. `page` changes with `Step::Page` alone.
    pub fn try_take(
        &mut self,
        actor: Actor,
        lane: u32,
        i: u32,
        page: &mut Page,
    ) -> Result<Step<D>, NotYet>
        requires standing { IsStanding D.seen J.suits self.old.state }
        requires hands { HoldsNone (core_of D.seen self.old.state) actor }
        requires wants { (call : Flight) × IsToGather (core_of D.seen self.old.state).calls (core_of D.seen self.old.state).lanes actor lane i call × (call.claim.reach.mode ≡ Exclusive) }
        ensures way { IfOk result (λ x. way (core_of D.seen self.old.state) lane i ≡ way_gone (errand_in x)) }
        ensures page { IfOk result (λ x. errand_in x ≡ None → page.new ≡ page_of (contents (core_of D.seen self.old.state).blocks) (span_block (core_of D.seen self.old.state).places (flight_at (core_of D.seen self.old.state).calls lane).claim i)) }
        ensures kept { IfOk result (λ x. is_some (errand_in x) ≡ true → page.new ≡ page.old) }
        ensures block { IfOk result (λ x. IfSome (errand_in x) (λ e. span_block (core_of D.seen self.old.state).places (flight_at (core_of D.seen self.old.state).calls lane).claim i ≡ Some e.subject)) }
        ensures out { IfOk result (λ x. IfSome (errand_in x) (λ e. WentOut D.seen actor (ToFill lane i) (self.old.state.sizes.meta + e.subject) e self.new.state)) }
        ensures made { IfOk result (λ x. Made D.seen J.suits self.old.state (take_event actor lane i (errand_in x)) self.new.state) }
        ensures stands { IfOk result (λ x. ExtendsMaybeOut D.seen J.suits self.old.state (take_event actor lane i (errand_in x)) self.new.state (errand_in x)) }
        ensures not_yet { IfErr result (λ y. (d : ℕ) × (way (core_of D.seen self.old.state) lane i ≡ Busy d) × (y ≡ DieBusy d)) }
        ensures same { IfErr result (λ y. (self.new.state ≡ self.old.state) × (page.new ≡ page.old)) }
    {
        let errand = system_pages::try_take(&mut self.state, actor, lane, i, page)?;
        Ok(step_of(errand))
    }

    /// The die that an actor was handed to fill the page at place `i` of the span of a lane's call comes home, with the page that it
    /// read: it is put in at the side of a call that shares it, and `page` is then the page of a frame, with any bytes; it is lent to a
    /// call that has it alone. Where the read failed the lane is marked, and nothing is put in or lent.
    pub fn fill_in(&mut self, actor: Actor, lane: u32, i: u32, errand: Errand<D>, page: &mut Page)
        requires standing { IsStanding D.seen J.suits self.old.state }
        requires errand { FillBack D.seen self.old.state actor lane i errand page.old }
        requires counts { self.old.state.places.reads ≤ 2 ^ 64 - 3 }
        ensures made { Made D.seen J.suits self.old.state (fill_in_event actor errand) self.new.state }
        ensures stands { ExtendsHome D.seen J.suits self.old.state (fill_in_event actor errand) self.new.state errand }
        ensures failed { succeeded errand.outcome ≡ false → page.new ≡ page.old }
        ensures lent { (flight_at (core_of D.seen self.old.state).calls lane).claim.reach.mode ≡ Exclusive → page.new ≡ page.old }
    {
        system_pages::fill_in(&mut self.state, actor, lane, i, errand, page);
    }

    /// The first copy in a side's order goes that no call in flight spans, and whose block is clean or has its other copy; the answer is
    /// its block. `NotYet::NoVictim`: there is no such copy among those of the side, of which it says how many they are.
    pub fn try_evict(&mut self, actor: Actor, side: Side) -> Result<u32, NotYet>
        requires standing { IsStanding D.seen J.suits self.old.state }
        requires hands { HoldsNone (core_of D.seen self.old.state) actor }
        requires closing { actor ≡ Closer → IsClosing (core_of D.seen self.old.state) }
        ensures first { IfOk result (λ b. find (is_spare (core_of D.seen self.old.state) side) (order_at side (core_of D.seen self.old.state)) ≡ Some b) }
        ensures made { IfOk result (λ b. Made D.seen J.suits self.old.state (Evict actor side b) self.new.state) }
        ensures stands { IfOk result (λ b. Extends D.seen J.suits self.old.state (Evict actor side b) self.new.state) }
        ensures not_yet { IfErr result (λ y. (find (is_spare (core_of D.seen self.old.state) side) (order_at side (core_of D.seen self.old.state)) ≡ None)
            × (y ≡ NoVictim (length (order_at side (core_of D.seen self.old.state))))) }
        ensures same { IfErr result (λ y. self.new.state ≡ self.old.state) }
    {
        system_pages::try_evict(&mut self.state, actor, side)
    }

    /// The first copy in the host's order that no call in flight spans, and of whose block the drive has none, goes to a free frame of
    /// the drive; the answer is its block. `NotYet::NoRoom`: the drive has no free frame; it says how many are used, and needs 1.
    /// `NotYet::NoVictim`: it has one, and there is no such copy among those of the host, of which it says how many they are.
    pub fn try_demote(&mut self, actor: Actor) -> Result<u32, NotYet>
        requires standing { IsStanding D.seen J.suits self.old.state }
        requires hands { HoldsNone (core_of D.seen self.old.state) actor }
        requires closing { actor ≡ Closer → IsClosing (core_of D.seen self.old.state) }
        ensures first { IfOk result (λ b. find (is_demotable (core_of D.seen self.old.state)) (core_of D.seen self.old.state).host_order ≡ Some b) }
        ensures room { IfOk result (λ b. drive_used (core_of D.seen self.old.state) < self.old.state.sizes.drive) }
        ensures made { IfOk result (λ b. Made D.seen J.suits self.old.state (Demote actor b) self.new.state) }
        ensures stands { IfOk result (λ b. Extends D.seen J.suits self.old.state (Demote actor b) self.new.state) }
        ensures none { IfErr result (λ y. nat_lt (drive_used (core_of D.seen self.old.state)) self.old.state.sizes.drive ≡ true → find (is_demotable (core_of D.seen self.old.state)) (core_of D.seen self.old.state).host_order ≡ None) }
        ensures not_yet { IfErr result (λ y. y ≡ demote_refusal (core_of D.seen self.old.state)) }
        ensures same { IfErr result (λ y. self.new.state ≡ self.old.state) }
    {
        system_pages::try_demote(&mut self.state, actor)
    }
}
