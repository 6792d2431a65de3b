//! Laws: each is the contract of an empty function.
ghost use Rattle.std.specs.Prelude.{◌≡◌, ◌⊎◌, ◌<◌, ◌≤◌, ◌+◌, ◌*◌, ℕ, Bool, true, false, List, [], ◌∷◌, ◌++◌, length, map, Option, Some, None};
ghost use Rattle.plain_files.specs.declared.calls.Request.{Request};
ghost use Rattle.sbpf_insn.specs.Machine.{Outcome};
ghost use Rattle.dispatcher.specs.declared.side.Side.{Side};
ghost use Rattle.dispatcher.specs.declared.side.Side.TheVariants.{Host, Drive};
ghost use Rattle.plain_files.specs.declared.calls.Reply.{Reply};
ghost use Rattle.plain_files.specs.Plain.{early};
ghost use Rattle.core_state.specs.declared.actor.Actor.TheVariants.{Lane, Worker};
ghost use Rattle.core_state.specs.declared.event.Event.TheVariants.{Skip, Quick, Begin, Submit, Fetch, Report};
ghost use Rattle.core_state.specs.Contents.{span_block};
ghost use Rattle.core_state.specs.Reach.{is_sync, claim_for};
ghost use Rattle.core_state.specs.LaneEvents.{HasAwaited, is_quick, MayQuick, MayBegin};
ghost use Rattle.plain_files.specs.History.{Entry, Serves, replies};
ghost use Rattle.core_state.specs.declared.event.Event.{Event};
ghost use Rattle.core_state.specs.State.{Page, Held, Queued, Running, Reported, Flight, Core};
ghost use Rattle.core_state.specs.PlainOf.{plain};
ghost use Rattle.core_state.specs.Opening.{new_lane};
ghost use Rattle.core_state.specs.Coherent.{Coherent};
ghost use Rattle.core_state.specs.Happens.{HoldsNone, CoreRun, Happens, actor_of, is_homecoming};
ghost use Rattle.core_state.specs.History.{calls_of, failures, is_failure};
ghost use Rattle.core_state.specs.Happens.{after_all};
ghost use Rattle.core_solo.specs.Solo.{Steps, acting, need, is_wanting, room_event, sync_event, solo_side, page_to_gather, gather_event, end_event, IsNext, IsStep, IsSyncStep, IsStored, SyncEnds, SoloCall, SoloSync, Script, SoloLine, SoloLines, SoloRun, enters, leaves};
ghost use Rattle.core_solo.specs.Alone.{HasFrames, OpeningFrames, IsEncoding, IsAlone, IsAtRest, GoesOn, CallEnds, room_left, dies_out};
ghost use Rattle.core_solo.specs.Left.{solo_left, GathersNone, SyncsNone};
ghost use Rattle.core_solo.specs.Settling.{sync_left, IsSettling, IsFresh, SettlesOn, SettleEnds, AreInOrder, RunEnds};
ghost use Rattle.core_solo.specs.Stored.{IsOfDrive, IsAllStored};
ghost use Rattle.core_solo.specs.SmallSolo.{solo_core, small_script, zeros};
ghost use Rattle.core_solo.specs.Served.{line_calls, IsScript, FollowLines, AreFed, AsTold, starved_of};

/// Where one lane's call is alone in a coherent core, its next event is there, and happens.
pub fn never_stuck()
    ensures { (encode : Core → ℕ → Page) (c : Core) (lane : ℕ) (request : Request) → IsEncoding encode → HasFrames c.shape → Coherent c →
        IsAlone c lane request → GoesOn encode c lane request }
{}

/// Its steps leave it alone. A core at rest is one in which each lane's next call is alone, if what it awaits has ended; and a whole call
/// leads from rest to rest.
pub fn alone_kept()
    ensures steps { (encode : Core → ℕ → Page) (c c2 : Core) (lane : ℕ) (request : Request) (e : Event) → Coherent c → IsAlone c lane request →
        IsStep encode lane request c e → Happens c e c2 → IsAlone c2 lane request }
    ensures begins { (c : Core) (lane : ℕ) (request : Request) → IsAtRest c → lane < c.shape.lanes → HasAwaited c.lanes request → IsAlone c lane request }
    ensures rest { (encode : Core → ℕ → Page) (c c1 : Core) (lane : ℕ) (request : Request) (es : List Event) → Coherent c → IsAtRest c →
        lane < c.shape.lanes → SoloCall encode c lane request es → CoreRun c es c1 → IsAtRest c1 }
{}

/// While room is made, each event that doesn't fail leaves less to do: `2|host| + |drive| + 2|unclean|`, less 1 while a die is out, falls.
pub fn room_falls()
    ensures { (encode : Core → ℕ → Page) (c c2 : Core) (lane : ℕ) (request : Request) (e : Event) → Coherent c → IsAlone c lane request → c.calls lane ≡ None →
        IsStep encode lane request c e → Happens c e c2 → is_failure e ≡ false → c2.calls lane ≡ None → room_left c2 + dies_out c < room_left c + dies_out c2 }
{}

/// A call that is alone has at most 4,096 events, however the dies answer; and it can be made to its end.
pub fn call_ends()
    ensures short { (encode : Core → ℕ → Page) (c c1 : Core) (lane : ℕ) (request : Request) (es : List Event) → OpeningFrames c.shape → Coherent c →
        IsAlone c lane request → c.calls lane ≡ None → SoloCall encode c lane request es → CoreRun c es c1 → length es ≤ 4096 }
    ensures ends { (encode : Core → ℕ → Page) (c : Core) (lane : ℕ) (request : Request) → IsEncoding encode → HasFrames c.shape → Coherent c →
        IsAlone c lane request → CallEnds encode c lane request }
{}

/// Each step of a call that is alone leaves fewer to make, and at first they are at most 2,383: a measure for loops.
pub fn call_falls()
    ensures falls { (encode : Core → ℕ → Page) (c c2 : Core) (lane : ℕ) (request : Request) (e : Event) → Coherent c → IsAlone c lane request →
        IsStep encode lane request c e → Happens c e c2 → solo_left c2 lane < solo_left c lane }
    ensures most { (c : Core) (lane : ℕ) → OpeningFrames c.shape → Coherent c → c.calls lane ≡ None → solo_left c lane ≤ 2383 }
{}

/// Nobody is in the way of a call that is alone: where who acts for it holds no die, all are at home; and where frames are wanting, room can be made.
pub fn alone_unblocked()
    ensures home { (c : Core) (lane : ℕ) (request : Request) → IsAlone c lane request → HoldsNone c (acting lane (c.calls lane)) → (die : ℕ) → (c.dies die).out ≡ None }
    ensures room { (c : Core) (lane : ℕ) (request : Request) → Coherent c → HasFrames c.shape → IsAlone c lane request → c.calls lane ≡ None → HoldsNone c (Lane lane) →
        early (plain c) request.call ≡ None → (side : Side) → is_wanting c (claim_for c.names.files request side) ≡ true → (e : Event) × (room_event c (Lane lane) side ≡ Some e) }
{}

/// Which event is next, by the stage of the call; also where others are in flight.
pub fn next_events()
    ensures home { (encode : Core → ℕ → Page) (c : Core) (lane : ℕ) (request : Request) (e : Event) → is_homecoming e ≡ true →
        actor_of e ≡ acting lane (c.calls lane) → IsNext encode lane request c e }
    ensures skip { (encode : Core → ℕ → Page) (c : Core) (lane : ℕ) (request : Request) → c.calls lane ≡ None → (c.lanes lane).mark ≡ true →
        IsNext encode lane request c (Skip lane request true) }
    ensures quick { (encode : Core → ℕ → Page) (c : Core) (lane : ℕ) (request : Request) (reply : Reply) → MayQuick c lane request reply →
        IsNext encode lane request c (Quick lane request reply) }
    ensures room { (encode : Core → ℕ → Page) (c : Core) (lane : ℕ) (request : Request) (e : Event) → c.calls lane ≡ None → (c.lanes lane).mark ≡ false →
        is_quick request.call ≡ false → early (plain c) request.call ≡ None → is_wanting c (claim_for c.names.files request (solo_side c request)) ≡ true →
        room_event c (Lane lane) (solo_side c request) ≡ Some e → IsNext encode lane request c e }
    ensures begin { (encode : Core → ℕ → Page) (c : Core) (lane : ℕ) (request : Request) (side : Side) → MayBegin c lane request side →
        IsNext encode lane request c (Begin lane request side) }
    ensures submit { (encode : Core → ℕ → Page) (c : Core) (lane : ℕ) (request : Request) (x : Flight) → c.calls lane ≡ Some x → x.phase ≡ Held →
        x.claim.side ≡ Drive → IsNext encode lane request c (Submit lane) }
    ensures fetch { (encode : Core → ℕ → Page) (c : Core) (lane : ℕ) (request : Request) (x : Flight) → c.calls lane ≡ Some x → x.phase ≡ Queued →
        IsNext encode lane request c (Fetch 0 lane) }
    ensures gather { (encode : Core → ℕ → Page) (c : Core) (lane i : ℕ) (request : Request) (x : Flight) → c.calls lane ≡ Some x → x.phase ≡ Held →
        x.claim.side ≡ Host → (c.lanes lane).mark ≡ false → page_to_gather x ≡ Some i →
        IsNext encode lane request c (gather_event c (Lane lane) lane x i (span_block c.places x.claim i)) }
    ensures gather_in_drive { (encode : Core → ℕ → Page) (c : Core) (lane w i : ℕ) (request : Request) (x : Flight) → c.calls lane ≡ Some x → x.phase ≡ Running w →
        (c.lanes lane).mark ≡ false → page_to_gather x ≡ Some i → IsNext encode lane request c (gather_event c (Worker w) lane x i (span_block c.places x.claim i)) }
    ensures report { (encode : Core → ℕ → Page) (c : Core) (lane w : ℕ) (request : Request) (x : Flight) → c.calls lane ≡ Some x → x.phase ≡ Running w →
        GathersNone c lane x → IsNext encode lane request c (Report w lane) }
    ensures sync { (encode : Core → ℕ → Page) (c : Core) (lane : ℕ) (request : Request) (x : Flight) (e : Event) → c.calls lane ≡ Some x → x.phase ≡ Held →
        x.claim.side ≡ Host → is_sync x.claim.request.call ≡ true → (c.lanes lane).mark ≡ false → page_to_gather x ≡ None →
        sync_event encode c (Lane lane) x.meta ≡ Some e → IsNext encode lane request c e }
    ensures end { (encode : Core → ℕ → Page) (c : Core) (lane : ℕ) (request : Request) (x : Flight) → c.calls lane ≡ Some x → x.phase ≡ Held →
        x.claim.side ≡ Host → GathersNone c lane x → SyncsNone encode c lane x → IsNext encode lane request c (end_event c lane x) }
    ensures end_reported { (encode : Core → ℕ → Page) (c : Core) (lane : ℕ) (request : Request) (x : Flight) (result : Option Outcome) → c.calls lane ≡ Some x →
        x.phase ≡ Reported result → IsNext encode lane request c (end_event c lane x) }
{}

/// The last sync: all is stored, or its next event is there, and happens. It has at most 4,096 events, however the dies answer; and it can be
/// made to its end.
pub fn sync_ends()
    ensures goes_on { (encode : Core → ℕ → Page) (c : Core) → IsEncoding encode → Coherent c → IsSettling c → IsStored c ⊎ SettlesOn encode c }
    ensures kept { (encode : Core → ℕ → Page) (c c2 : Core) (e : Event) → Coherent c → IsSettling c → IsSyncStep encode c e → Happens c e c2 → IsSettling c2 }
    ensures falls { (encode : Core → ℕ → Page) (c c2 : Core) (e : Event) → Coherent c → IsSettling c → IsSyncStep encode c e → Happens c e c2 →
        sync_left c2 + dies_out c < sync_left c + dies_out c2 }
    ensures short { (encode : Core → ℕ → Page) (c c1 : Core) (es : List Event) → OpeningFrames c.shape → Coherent c → IsSettling c →
        SoloSync encode c es → CoreRun c es c1 → length es ≤ 4096 }
    ensures ends { (encode : Core → ℕ → Page) (c : Core) → IsEncoding encode → Coherent c → IsSettling c → SettleEnds encode c }
{}

/// A last sync that comes to its end has stored all: every block is clean, and the meta pages are those of the core that it leads to.
pub fn sync_stores()
    ensures sync { (encode : Core → ℕ → Page) (c c1 : Core) (es : List Event) → IsOfDrive encode → Coherent c → IsSettling c →
        ((die : ℕ) → (c.dies die).out ≡ None) → c.closer ≡ 0 → SyncEnds encode c es → CoreRun c es c1 → IsAllStored encode c1 }
    ensures run { (encode : Core → ℕ → Page) (c0 c1 : Core) (script : Script) (last : Bool) (events : List Event) → IsOfDrive encode → OpeningFrames c0.shape →
        length script.lanes ≡ c0.shape.lanes → Coherent c0 → IsFresh c0 → c0.closer ≡ 0 → (run : SoloRun encode c0 script last events c1) →
        SyncEnds encode (after_all c0 (enters c0.shape.lanes ++ (run.lines ++ leaves c0.shape.lanes))) run.settling → IsAllStored encode c1 }
{}

/// A SoloRun has at most 4,096 events for each call and in the last sync, besides two for each lane.
pub fn run_short()
    ensures { (encode : Core → ℕ → Page) (c0 c1 : Core) (script : Script) (last : Bool) (events : List Event) → OpeningFrames c0.shape →
        length script.lanes ≡ c0.shape.lanes → Coherent c0 → IsFresh c0 → SoloRun encode c0 script last events c1 →
        length events ≤ 4096 * (length script.order + 1) + 2 * c0.shape.lanes }
{}

/// For each script whose lines are in order a SoloRun is there, from a core in which no lane has entered, to its end: nothing above speaks of nothing.
pub fn run_ends()
    ensures { (encode : Core → ℕ → Page) (c0 : Core) (script : Script) (last : Bool) → IsEncoding encode → OpeningFrames c0.shape → length script.lanes ≡ c0.shape.lanes →
        Coherent c0 → IsFresh c0 → ((lane : ℕ) → c0.lanes lane ≡ new_lane) → AreInOrder script → RunEnds encode c0 script last }
{}

/// The calls of a SoloRun are those of the lines, each once, in line order; so it serves a script whose lines have each lane's requests in order.
pub fn run_serves()
    ensures lines { (encode : Core → ℕ → Page) (c0 c1 : Core) (script : Script) (last : Bool) (events : List Event) → OpeningFrames c0.shape →
        length script.lanes ≡ c0.shape.lanes → Coherent c0 → IsFresh c0 → SoloRun encode c0 script last events c1 →
        FollowLines script script.order (calls_of events) }
    ensures serves { (encode : Core → ℕ → Page) (c0 c1 : Core) (script : Script) (last : Bool) (events : List Event) → OpeningFrames c0.shape →
        length script.lanes ≡ c0.shape.lanes → Coherent c0 → IsFresh c0 → IsScript script → AreInOrder script → SoloRun encode c0 script last events c1 →
        Serves script.lanes (calls_of events) }
{}

/// Where no die fails and no call is starved, the replies of a run are the plain machine's, in order; those of a SoloRun are its replies to the
/// lines.
pub fn run_exact()
    ensures run { (c0 c1 : Core) (events : List Event) → Coherent c0 → ((lane : ℕ) → (c0.lanes lane).mark ≡ false) → CoreRun c0 events c1 →
        failures events ≡ 0 → AreFed (calls_of events) →
        map (λ (e : Entry). e.reply) (calls_of events) ≡ replies (plain c0) (map (λ (e : Entry). e.call) (calls_of events)) }
    ensures solo { (encode : Core → ℕ → Page) (c0 c1 : Core) (script : Script) (last : Bool) (events : List Event) → OpeningFrames c0.shape →
        length script.lanes ≡ c0.shape.lanes → Coherent c0 → IsFresh c0 → ((lane : ℕ) → (c0.lanes lane).mark ≡ false) → SoloRun encode c0 script last events c1 →
        failures events ≡ 0 → AreFed (calls_of events) → map (λ (e : Entry). e.reply) (calls_of events) ≡ replies (plain c0) (line_calls script script.order) }
{}

/// The dies' answers determine a call; and they and the starved calls a whole run.
pub fn run_determined()
    ensures call { (encode : Core → ℕ → Page) (told : ℕ → Bool × List ℕ) (k : ℕ) (c c1 c2 : Core) (lane : ℕ) (request : Request) (es fs : List Event) →
        Coherent c → IsAlone c lane request → SoloCall encode c lane request es → CoreRun c es c1 → AsTold told k es →
        SoloCall encode c lane request fs → CoreRun c fs c2 → AsTold told k fs → es ≡ fs }
    ensures run { (encode : Core → ℕ → Page) (told : ℕ → Bool × List ℕ) (c0 c1 c2 : Core) (script : Script) (last : Bool) (es fs : List Event) →
        OpeningFrames c0.shape → length script.lanes ≡ c0.shape.lanes → Coherent c0 → IsFresh c0 → SoloRun encode c0 script last es c1 → AsTold told 0 es →
        SoloRun encode c0 script last fs c2 → AsTold told 0 fs → starved_of es ≡ starved_of fs → es ≡ fs }
{}

/// Steps grow at their end, and close as a call; the last sync and the lines grow at their end too.
pub fn steps_grow()
    ensures append { (encode : Core → ℕ → Page) (c : Core) (lane : ℕ) (request : Request) (xs ys : List Event) → Steps (IsStep encode lane request) c xs →
        Steps (IsStep encode lane request) (after_all c xs) ys → Steps (IsStep encode lane request) c (xs ++ ys) }
    ensures sync { (encode : Core → ℕ → Page) (c : Core) (xs ys : List Event) → Steps (IsSyncStep encode) c xs → Steps (IsSyncStep encode) (after_all c xs) ys →
        Steps (IsSyncStep encode) c (xs ++ ys) }
    ensures lines { (encode : Core → ℕ → Page) (c : Core) (script : Script) (lines : List (ℕ × ℕ)) (line : ℕ × ℕ) (es own : List Event) →
        SoloLines encode c script lines es → SoloLine encode (after_all c es) script line own → SoloLines encode c script (lines ++ line ∷ []) (es ++ own) }
{}

/// A small run, with a data call, a sync and a call of a function in the drive, is there from an opening core to the end of its last sync.
pub fn small_solo_ends()
    ensures coherent { Coherent solo_core }
    ensures run { RunEnds zeros solo_core small_script true }
{}
