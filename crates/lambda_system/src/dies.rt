//! Dies go out to write a block or a page of the meta data, and come home.
ghost use Rattle.std.specs.Prelude.{◌≡◌, ◌+◌, ◌-◌, ◌^◌, ◌<◌, ◌≤◌, [], ℕ, IfOk, IfErr, Some, None, false};
ghost use Rattle.std.specs.List.{find};
ghost use Rattle.page_base.specs.Drive.{meta_pages};
ghost use Rattle.core_state.specs.declared.actor.Actor.TheVariants.{Closer};
ghost use Rattle.core_state.specs.State.{ToFlush, ToMeta};
ghost use Rattle.core_state.specs.Contents.{die_of_page};
ghost use Rattle.core_state.specs.DieEvents.{MayWriteMeta, FlushesFor, is_home, is_flushable, flush_of};
ghost use Rattle.core_state.specs.Happens.{HoldsNone, IsClosing};
ghost use Rattle.system_state.specs.Cores.{core_of};
ghost use Rattle.system_state.specs.Made.{Made};
ghost use Rattle.system_state.specs.Stands.{IsStanding};
ghost use Rattle.system_state.specs.Errands.{WentOut};
ghost use Rattle.system_state.specs.declared.not_yet.NotYet.TheVariants.{DieBusy};
ghost use Rattle.system_dies.specs.Going.{flush_out_event, flush_refusal};
ghost use Rattle.system_dies.specs.Coming.{FlushBack, flush_in_event};
ghost use Rattle.system_metas.specs.Encode.{encode};
ghost use Rattle.system_metas.specs.Going.{meta_out_event};
ghost use Rattle.system_metas.specs.Coming.{MetaBack, meta_in_event};
ghost use Rattle.lambda_system.specs.Events.{ExtendsOut, ExtendsHome};

use crate::system::System;
use core_state::Actor;
use flash_die::Die;
use page_base::Page;
use system_state::{CallJob, Errand, NotYet};

impl<D: Die, J: CallJob> System<D, J> {
    /// The die of the first unclean block whose die is at home goes out, with a copy of the block's page. `NotYet::NothingDirty`: no block
    /// is unclean. `NotYet::DieBusy`: the dies of all unclean blocks are out, of which the first one's is named.
    pub fn try_flush_out(&mut self, actor: Actor, into: &mut Page) -> Result<Errand<D>, NotYet>
        requires standing { IsStanding D.seen J.suits self.old.state }
        requires hands { HoldsNone (core_of D.seen self.old.state) actor }
        requires acts { FlushesFor (core_of D.seen self.old.state) actor }
        requires closing { actor ≡ Closer → IsClosing (core_of D.seen self.old.state) }
        ensures first { IfOk result (λ e. find (is_flushable (core_of D.seen self.old.state)) (core_of D.seen self.old.state).unclean ≡ Some e.subject) }
        ensures out { IfOk result (λ e. WentOut D.seen actor (flush_of (core_of D.seen self.old.state) e.subject) (self.old.state.sizes.meta + e.subject) e self.new.state) }
        ensures page { IfOk result (λ e. flush_of (core_of D.seen self.old.state) e.subject ≡ ToFlush e.subject ((core_of D.seen self.old.state).blocks e.subject).version into.new) }
        ensures made { IfOk result (λ e. Made D.seen J.suits self.old.state (flush_out_event actor e) self.new.state) }
        ensures stands { IfOk result (λ e. ExtendsOut D.seen J.suits self.old.state (flush_out_event actor e) self.new.state e) }
        ensures not_yet { IfErr result (λ y. (find (is_flushable (core_of D.seen self.old.state)) (core_of D.seen self.old.state).unclean ≡ None)
            × (y ≡ flush_refusal (core_of D.seen self.old.state) (core_of D.seen self.old.state).unclean)) }
        ensures same { IfErr result (λ y. (self.new.state ≡ self.old.state) × (into.new ≡ into.old)) }
    {
        system_dies::try_flush_out(&mut self.state, actor, into)
    }

    /// The die that an actor was handed for a flush comes home. Where the write succeeded and the block's version is unchanged, the block
    /// is written and clean.
    pub fn flush_in(&mut self, actor: Actor, errand: Errand<D>)
        requires standing { IsStanding D.seen J.suits self.old.state }
        requires closing { actor ≡ Closer → IsClosing (core_of D.seen self.old.state) }
        requires errand { FlushBack D.seen self.old.state actor errand }
        requires counts { self.old.state.places.writes ≤ 2 ^ 64 - 3 }
        ensures made { Made D.seen J.suits self.old.state (flush_in_event D.seen actor errand) self.new.state }
        ensures stands { ExtendsHome D.seen J.suits self.old.state (flush_in_event D.seen actor errand) self.new.state errand }
    {
        system_dies::flush_in(&mut self.state, actor, errand);
    }

    /// The die of a page of the meta data goes out, with the bytes of the page, which are encoded now. The actor is a lane with a `sync`
    /// in flight, or the closer, and the page is the next one that it writes. `NotYet::DieBusy`: the die is out.
    pub fn try_meta_out(
        &mut self,
        actor: Actor,
        i: u32,
        into: &mut Page,
    ) -> Result<Errand<D>, NotYet>
        requires standing { IsStanding D.seen J.suits self.old.state }
        requires hands { HoldsNone (core_of D.seen self.old.state) actor }
        requires closing { actor ≡ Closer → IsClosing (core_of D.seen self.old.state) }
        requires writes { MayWriteMeta (core_of D.seen self.old.state) actor i }
        requires below { i < meta_pages self.old.state.sizes.blocks }
        requires first { i ≡ 0 → (core_of D.seen self.old.state).unclean ≡ [] }
        ensures page { IfOk result (λ e. e.subject ≡ i) }
        ensures bytes { IfOk result (λ e. into.new ≡ encode (core_of D.seen self.old.state) i) }
        ensures out { IfOk result (λ e. WentOut D.seen actor (ToMeta i into.new) i e self.new.state) }
        ensures made { IfOk result (λ e. Made D.seen J.suits self.old.state (meta_out_event actor i into.new e) self.new.state) }
        ensures stands { IfOk result (λ e. ExtendsOut D.seen J.suits self.old.state (meta_out_event actor i into.new e) self.new.state e) }
        ensures not_yet { IfErr result (λ y. (is_home ((core_of D.seen self.old.state).dies (die_of_page (core_of D.seen self.old.state).shape i)) ≡ false)
            × (y ≡ DieBusy (die_of_page (core_of D.seen self.old.state).shape i))) }
        ensures same { IfErr result (λ y. (self.new.state ≡ self.old.state) × (into.new ≡ into.old)) }
    {
        system_metas::try_meta_out(&mut self.state, actor, i, into)
    }

    /// The die that an actor was handed for a page of the meta data comes home. Where the write succeeded, one more page is written, by
    /// the `sync` of the lane or by the closer.
    pub fn meta_in(&mut self, actor: Actor, errand: Errand<D>)
        requires standing { IsStanding D.seen J.suits self.old.state }
        requires closing { actor ≡ Closer → IsClosing (core_of D.seen self.old.state) }
        requires errand { MetaBack D.seen self.old.state actor errand }
        requires counts { self.old.state.places.writes ≤ 2 ^ 64 - 3 }
        ensures made { Made D.seen J.suits self.old.state (meta_in_event D.seen actor errand) self.new.state }
        ensures stands { ExtendsHome D.seen J.suits self.old.state (meta_in_event D.seen actor errand) self.new.state errand }
    {
        system_metas::meta_in(&mut self.state, actor, errand);
    }
}
