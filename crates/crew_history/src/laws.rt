//! Laws: each is the contract of an empty function.
ghost use Rattle.std.specs.Prelude.{◌≡◌, ◌<◌, ◌^◌, ℕ, List, None, length, slice_index_or};
ghost use Rattle.std.specs.declared.snapshot.Snapshot.{Snapshot};
ghost use Rattle.turn_cell.specs.declared.turn.Turn.{Turn};
ghost use Rattle.turn_cell.specs.declared.view.View.{View};
ghost use Rattle.turn_cell.specs.Events.{events_of};
ghost use Rattle.turn_cell.specs.Passes.{opening_of};
ghost use Rattle.plain_files.specs.declared.calls.Request.{Request};
ghost use Rattle.plain_files.specs.History.{Serves};
ghost use Rattle.flash_die.specs.Dies.{DieView};
ghost use Rattle.core_state.specs.declared.actor.Actor.TheVariants.{Closer};
ghost use Rattle.core_state.specs.declared.event.Event.{Event};
ghost use Rattle.core_state.specs.Happens.{HoldsNone, IsClosing};
ghost use Rattle.core_state.specs.History.{calls_of};
ghost use Rattle.system_state.specs.Cores.{core_of};
ghost use Rattle.system_state.specs.declared.state.State.{State};
ghost use Rattle.desk_turns.specs.Passing.{core_seen};
ghost use Rattle.page_steps.specs.Books.{opening_in};
ghost use Rattle.page_steps.specs.SystemOf.{System};
ghost use Rattle.crews.specs.declared.post.Post.{Post};
ghost use Rattle.lane_logs.specs.Logs.{replies_to};
ghost use Rattle.crew_history.specs.Begun.{AreBegun};
ghost use Rattle.crew_history.specs.Worked.{HaveWorked, HaveEnded};

/// Where the posts of a crew have worked, and no joined pass had seen all the events that a turn counts: the calls of the history serve the
/// lanes' requests (*serves*), each lane's log has the replies to the lane's calls with the numbers that they have in the history (*logs*),
/// every lane has left and no call is in flight (*closing*), and all dies are at home where the closer holds none (*home*).
pub fn crew_served<D, J>()
    ensures serves { (seen : D → DieView) (turn : Turn (System D J) (Snapshot (State D J)) Event) (lanes : List (List Request)) (posts : List (Post D J)) (v : View (Snapshot (State D J)) Event) →
        HaveWorked seen turn lanes posts v → HaveEnded v → Serves lanes (calls_of (events_of v.seen)) }
    ensures logs { (seen : D → DieView) (turn : Turn (System D J) (Snapshot (State D J)) Event) (lanes : List (List Request)) (posts : List (Post D J)) (v : View (Snapshot (State D J)) Event) →
        HaveWorked seen turn lanes posts v → HaveEnded v → (lane : ℕ) (d : Post D J) → lane < length lanes →
        (slice_index_or posts lane d).log.items ≡ replies_to lane (opening_of opening_in turn).value.last (calls_of (events_of v.seen)) }
    ensures closing { (seen : D → DieView) (turn : Turn (System D J) (Snapshot (State D J)) Event) (lanes : List (List Request)) (posts : List (Post D J)) (v : View (Snapshot (State D J)) Event) →
        HaveWorked seen turn lanes posts v → HaveEnded v → IsClosing (core_seen (core_of seen) (opening_of opening_in turn) v) }
    ensures home { (seen : D → DieView) (turn : Turn (System D J) (Snapshot (State D J)) Event) (lanes : List (List Request)) (posts : List (Post D J)) (v : View (Snapshot (State D J)) Event) →
        HaveWorked seen turn lanes posts v → HaveEnded v → HoldsNone (core_seen (core_of seen) (opening_of opening_in turn) v) Closer →
        (die : ℕ) → ((core_seen (core_of seen) (opening_of opening_in turn) v).dies die).out ≡ None }
{}

/// Where the posts of a crew have worked, each lane made the first of its calls, in their order. So it is also where the turn is worn.
pub fn crew_begun<D, J>()
    ensures { (seen : D → DieView) (turn : Turn (System D J) (Snapshot (State D J)) Event) (lanes : List (List Request)) (posts : List (Post D J)) (v : View (Snapshot (State D J)) Event) →
        HaveWorked seen turn lanes posts v → AreBegun lanes (calls_of (events_of v.seen)) }
{}
