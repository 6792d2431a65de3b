//! The work of a post.
ghost use Rattle.std.specs.Prelude.{◌≡◌, ◌≢◌, ◌≤◌, ◌<◌, ◌^◌, [], length, IfErr, vec_capacity};
ghost use Rattle.turn_cell.specs.Steps.{IsWorn};
ghost use Rattle.core_state.specs.declared.actor.Actor.TheVariants.{Closer};
ghost use Rattle.system_state.specs.Cores.{core_of};
ghost use Rattle.desk_turns.specs.Passing.{ActsFor, Does};
ghost use Rattle.page_steps.specs.Words.{IsSmall};
ghost use Rattle.crews.specs.Acts.{ActSays};
ghost use Rattle.crews.specs.Posts.{HasWorked, IsReady, IsDone};
ghost use Rattle.crews.specs.Seats.{view_at, opening_at, table_at, IsFreeSeat, IsUntouched};

use crate::hands::Hands;
use crate::lane::run_lane;
use crate::looking::look;
use crate::post::Post;
use core_state::Actor;
use flash_die::Die;
use flusher::flusher_loop;
use gates::Gate;
use page_steps::System;
use std::sync::Wait;
use system_state::CallJob;
use turn_cell::{Seated, Turn, Worn};

/// What a post's actor does, from its first event to its last: a lane's calls, a worker's work, or a flusher's.
fn act<'a, D: Die, J: CallJob, R: Wait, G: Gate, H: Hands<D, J, R, G>>(
    rt: &R,
    desk: &mut Seated<'a, System<D, J>, R>,
    gate: &G,
    hands: &H,
    post: &mut Post<D, J>,
) -> Result<(), Worn>
    requires free { IsFreeSeat desk.old }
    requires acts { ActsFor (core_of D.seen) (opening_at desk.old) (view_at desk.old) post.old.actor }
    requires actor { post.old.actor ≢ Closer }
    requires untouched { IsUntouched (core_of D.seen (opening_at desk.old).value) }
    requires small { IsSmall (opening_at desk.old).value }
    requires saw { (view_at desk.old).seen ≡ [] }
    requires few { length post.old.requests.items < 2 ^ 32 }
    requires empty { post.old.log.items ≡ [] }
    requires room { length post.old.requests.items ≤ vec_capacity post.old.log }
    ensures free { IsFreeSeat desk.new }
    ensures worn { IfErr result (λ x. IsWorn x.count (view_at desk.new)) }
    ensures turn { (table_at desk.new ≡ table_at desk.old) × (opening_at desk.new ≡ opening_at desk.old) }
    ensures post { (post.new.actor ≡ post.old.actor) × (post.new.requests ≡ post.old.requests) × (post.new.pass ≡ post.old.pass) }
    ensures did { Does (view_at desk.old) (view_at desk.new) (ActSays (core_of D.seen) (opening_at desk.old).value.last (opening_at desk.old) (view_at desk.new).seen post.old.actor post.old.requests.items post.new.log.items result) }
{
    match post.actor {
        Actor::Lane(lane) => run_lane(
            desk,
            gate,
            hands,
            lane,
            &post.requests,
            &mut post.log,
            &mut post.page,
        ),
        Actor::Worker(worker) => hands.work(desk, gate, worker, &mut post.page),
        Actor::Flusher(flusher) => flusher_loop(rt, desk, flusher, &mut post.page),
        Actor::Closer => unreachable!(),
    }
}

/// What a post's actor does, and a last look by which its pass has seen all that it made.
fn act_and_look<'a, D: Die, J: CallJob, R: Wait, G: Gate, H: Hands<D, J, R, G>>(
    rt: &R,
    desk: &mut Seated<'a, System<D, J>, R>,
    gate: &G,
    hands: &H,
    post: &mut Post<D, J>,
)
    requires free { IsFreeSeat desk.old }
    requires acts { ActsFor (core_of D.seen) (opening_at desk.old) (view_at desk.old) post.old.actor }
    requires actor { post.old.actor ≢ Closer }
    requires untouched { IsUntouched (core_of D.seen (opening_at desk.old).value) }
    requires small { IsSmall (opening_at desk.old).value }
    requires saw { (view_at desk.old).seen ≡ [] }
    requires made { (view_at desk.old).own ≡ [] }
    requires first { (view_at desk.old).first ≡ 0 }
    requires few { length post.old.requests.items < 2 ^ 32 }
    requires empty { post.old.log.items ≡ [] }
    requires room { length post.old.requests.items ≤ vec_capacity post.old.log }
    ensures free { IsFreeSeat desk.new }
    ensures turn { (table_at desk.new ≡ table_at desk.old) × (opening_at desk.new ≡ opening_at desk.old) }
    ensures post { (post.new.actor ≡ post.old.actor) × (post.new.requests ≡ post.old.requests) }
    ensures did { Does (view_at desk.old) (view_at desk.new) (HasWorked (core_of D.seen) (opening_at desk.old).value.last (opening_at desk.old) (view_at desk.old).number (view_at desk.new).seen post.old.actor post.old.requests.items post.new.log.items) }
{
    match act(rt, desk, gate, hands, post) {
        Ok(()) => {}
        Err(_) => return,
    }
    let _ = look(desk);
}

/// The work of a post, by its pass.
pub fn run_post<D: Die, J: CallJob, R: Wait, G: Gate, H: Hands<D, J, R, G>>(
    rt: &R,
    turn: &Turn<System<D, J>>,
    gate: &G,
    hands: &H,
    post: &mut Post<D, J>,
)
    requires { IsReady D.seen turn.now post.old }
    ensures { IsDone D.seen turn.now post.old post.new }
{
    let Some(pass) = post.pass.take() else {
        unreachable!()
    };
    let mut desk = Seated::new(rt, turn, pass);
    act_and_look(rt, &mut desk, gate, hands, post);
    post.pass = Some(desk.into_pass());
}
