//! Laws: each is the contract of an empty function.
ghost use Rattle.drive_array.specs.Reads as array;
ghost use Rattle.std.specs.Prelude.{◌≡◌, ◌<◌, ◌≤◌, ℕ, Bool, true, false, List, [], length, map, IfSome};
ghost use Rattle.flash_die.specs.Dies.{PlanView};
ghost use Rattle.core_state.specs.declared.event.Event.{Event};
ghost use Rattle.core_state.specs.State.{Page, Core};
ghost use Rattle.core_state.specs.Coherent.{Coherent};
ghost use Rattle.core_state.specs.History.{failures, faults, calls_of, DiePlan, Planned};
ghost use Rattle.core_state.specs.Happens.{CoreRun};
ghost use Rattle.core_solo.specs.Solo.{Script, SoloRun};
ghost use Rattle.core_solo.specs.Alone.{OpeningFrames, IsEncoding};
ghost use Rattle.core_solo.specs.Settling.{IsFresh, AreInOrder};
ghost use Rattle.core_solo.specs.Served.{starved_of, AreFed, line_calls};
ghost use Rattle.plain_files.specs.History.{replies, Entry as Called};
ghost use Rattle.core_state.specs.PlainOf.{plain};
ghost use Rattle.core_state.specs.Words.{sum_to};
ghost use Rattle.turn_cell.specs.declared.book.Entry.{Entry};
ghost use Rattle.turn_cell.specs.Events.{events_of};
ghost use Rattle.system_state.specs.Stands.{Stands};
ghost use Rattle.system_state.specs.declared.state.State.{State};
ghost use Rattle.system_state.specs.Slots.{die_at};
ghost use Rattle.flash_die.specs.Failures.{told_die};
ghost use Rattle.mirror_die.specs.Mirror.{seen_of};
ghost use Rattle.drive_array.specs.Shares.{start_plan, loaded_die};
ghost use Rattle.drive_array.specs.Mirrors.{mirror_of};
ghost use Rattle.script_words.specs.declared.script.FaultLine.{FaultLine};
ghost use Rattle.command_words.specs.declared.options.DieKind.{DieKind};
ghost use Rattle.command_words.specs.declared.options.DieKind.TheVariants.{Mem, Ftl, Mirror};
ghost use Rattle.fault_lines.specs.Lines.{plan_for, distinct_lines};
ghost use Rattle.page_base.specs.Drive.{Drive};
ghost use Rattle.drive_array.specs.Reads.{share_of, StopsIn, RisesAt, FailsWithin, GivesAll};
ghost use Rattle.system_start.specs.Started.{at_home};
ghost use Rattle.core_plans.specs.Gathering.{IsLost};
ghost use Rattle.core_plans.specs.Running.{RunsAsPlanned};
ghost use Rattle.core_state.specs.Opening.{new_lane};
ghost use Rattle.core_plans.specs.Lines.{plan_of, listed_for, IsDieOf, FailAsTold};
ghost use Rattle.core_plans.specs.Failing.{FailAsPlanned, LeaveAsTold, ListsNone, FailAtMost, TellPlans, BoundFailures, unused};

use flash_die::Die;
use system_state::CallJob;

/// The dies' plans, what their failed writes leave, and the calls without memory determine a run of one thread: two from one opening core over one
/// script are the same, event for event. Where the plans list no write, nothing need be said of what failed writes leave; and where nothing fails, the
/// calls without memory alone determine it.
pub fn plans_determine()
    ensures planned { (encode : Core → ℕ → Page) (plans : ℕ → PlanView) (left : ℕ → ℕ → Page) (c0 c1 c2 : Core) (script : Script) (last : Bool) (es fs : List Event) →
        OpeningFrames c0.shape → length script.lanes ≡ c0.shape.lanes → Coherent c0 → IsFresh c0 →
        SoloRun encode c0 script last es c1 → FailAsPlanned plans es → LeaveAsTold left plans es →
        SoloRun encode c0 script last fs c2 → FailAsPlanned plans fs → LeaveAsTold left plans fs → starved_of es ≡ starved_of fs → es ≡ fs }
    ensures reads { (encode : Core → ℕ → Page) (plans : ℕ → PlanView) (c0 c1 c2 : Core) (script : Script) (last : Bool) (es fs : List Event) →
        OpeningFrames c0.shape → length script.lanes ≡ c0.shape.lanes → Coherent c0 → IsFresh c0 → ((d : ℕ) → (plans d).failing_writes ≡ []) →
        SoloRun encode c0 script last es c1 → FailAsPlanned plans es → SoloRun encode c0 script last fs c2 → FailAsPlanned plans fs →
        starved_of es ≡ starved_of fs → es ≡ fs }
    ensures faultless { (encode : Core → ℕ → Page) (c0 c1 c2 : Core) (script : Script) (last : Bool) (es fs : List Event) →
        OpeningFrames c0.shape → length script.lanes ≡ c0.shape.lanes → Coherent c0 → IsFresh c0 → SoloRun encode c0 script last es c1 → failures es ≡ 0 →
        SoloRun encode c0 script last fs c2 → failures fs ≡ 0 → starved_of es ≡ starved_of fs → es ≡ fs }
{}

/// For all plans of the dies, and all pages that failed writes may leave, a run of one thread is there that fails so, and in which each call finds memory,
/// over each script whose lines are in order: by `plans_determine` exactly one.
pub fn plans_run()
    ensures { (encode : Core → ℕ → Page) (plans : ℕ → PlanView) (left : ℕ → ℕ → Page) (c0 : Core) (script : Script) (last : Bool) → ((d n : ℕ) → length (left d n) ≡ 4096) →
        IsEncoding encode → OpeningFrames c0.shape → length script.lanes ≡ c0.shape.lanes → Coherent c0 → IsFresh c0 → ((lane : ℕ) → c0.lanes lane ≡ new_lane) →
        AreInOrder script → RunsAsPlanned encode plans left c0 script last }
{}

/// Where the dies' plans list no number, no die event fails.
pub fn unlisted_spare()
    ensures { (plans : ℕ → PlanView) (events : List Event) → ((d : ℕ) → ListsNone (plans d)) → FailAsPlanned plans events → failures events ≡ 0 }
{}

/// The history that a system stands for fails as the plans say that its dies told at the opening (*planned*), and at most as often as the
/// bounds that they told let it (*bounded*).
pub fn standing_planned<D: Die, J: CallJob>()
    ensures planned { (s o : State D J) (h : List (Entry Event)) (plans : ℕ → PlanView) → Stands D.seen J.suits s o h → TellPlans D.seen o plans →
        FailAsPlanned plans (events_of h) }
    ensures bounded { (s o : State D J) (h : List (Entry Event)) (calls : ℕ → ℕ) → Stands D.seen J.suits s o h → BoundFailures D.seen o calls →
        FailAtMost (sum_to o.sizes.dies calls) (events_of h) }
{}

/// Over dies that have made no call, the history fails by the plans as they are, each number counted from 1.
pub fn counted_from_one()
    ensures { (plans : ℕ → DiePlan) (events : List Event) → FailAsPlanned (λ d. unused (plans d)) events → Planned events plans }
{}

/// Over any dies, the plans of lines list no more numbers, those of second copies with them, than there are lines that say different things.
pub fn plans_list_few()
    ensures { (dies : ℕ) (lines : List FaultLine) → sum_to dies (listed_for lines) ≤ distinct_lines lines }
{}

/// Dies that an image was spread over with the plans of the lines tell these plans, and bound their failures by them: dies in memory, dies over
/// raw flash, and mirrors.
pub fn made_dies_tell()
    ensures memory { (lines : List FaultLine) (d : ℕ) (pages : List (List ℕ)) → IsDieOf Mem lines d (told_die pages (start_plan (plan_for lines false d))) }
    ensures flash { (lines : List FaultLine) (d : ℕ) (pages : List (List ℕ)) → IsDieOf Ftl lines d (loaded_die pages (plan_for lines false d)) }
    ensures mirrors { (lines : List FaultLine) (d : ℕ) (pages copied : List (List ℕ)) →
        IsDieOf Mirror lines d (seen_of (mirror_of (told_die pages (start_plan (plan_for lines false d))) (told_die copied (start_plan (plan_for lines true d))))) }
{}

/// The history that a system stands for over such dies fails as the lines say (*told*), and over each kind of dies no more die events fail than there
/// are lines that say different things (*few*).
pub fn standing_told<D: Die, J: CallJob>()
    ensures told { (s o : State D J) (h : List (Entry Event)) (kind : DieKind) (lines : List FaultLine) → Stands D.seen J.suits s o h →
        ((d : ℕ) → d < o.sizes.dies → IsDieOf kind lines d (die_at D.seen o.rack.slots.items d)) → FailAsTold kind lines (events_of h) }
    ensures few { (s o : State D J) (h : List (Entry Event)) (kind : DieKind) (lines : List FaultLine) → Stands D.seen J.suits s o h →
        ((d : ℕ) → d < o.sizes.dies → IsDieOf kind lines d (die_at D.seen o.rack.slots.items d)) → FailAtMost (distinct_lines lines) (events_of h) }
{}

/// Where a history from a coherent core fails as the lines say, no more die events fail than there are lines that say different things; so, where no lane
/// has a mark at first, no more calls are answered `fault`.
pub fn told_failures_few()
    ensures failures { (c0 c1 : Core) (kind : DieKind) (lines : List FaultLine) (events : List Event) → Coherent c0 → CoreRun c0 events c1 →
        FailAsTold kind lines events → FailAtMost (distinct_lines lines) events }
    ensures faults { (c0 c1 : Core) (kind : DieKind) (lines : List FaultLine) (events : List Event) → Coherent c0 → ((lane : ℕ) → (c0.lanes lane).mark ≡ false) →
        CoreRun c0 events c1 → FailAsTold kind lines events → faults (calls_of events) ≤ distinct_lines lines }
{}

/// `gather`, of the dies of a system that stands for a history, as they come home: what it says of an `Ok` (*whole*) and of a die that failed (*lost*) is
/// that over dies in memory it fails exactly where a line names one of its reads, and over others only where there is a line.
pub fn gathered_told<D: Die, J: CallJob>()
    ensures whole { (s o : State D J) (h : List (Entry Event)) (kind : DieKind) (lines : List FaultLine) (drive : Drive) (dies : List D) → Stands D.seen J.suits s o h →
        ((d : ℕ) → d < o.sizes.dies → IsDieOf kind lines d (die_at D.seen o.rack.slots.items d)) → at_home dies ≡ s.rack.slots.items → drive.dies ≡ o.sizes.dies →
        ((d : ℕ) → d < drive.dies → IfSome (array.die_at (map D.seen dies) d).plan (GivesAll (share_of drive d))) → IsLost kind lines drive (events_of h) false }
    ensures lost { (s o : State D J) (h : List (Entry Event)) (kind : DieKind) (lines : List FaultLine) (drive : Drive) (dies left : List D) (d : ℕ) → Stands D.seen J.suits s o h →
        ((d : ℕ) → d < o.sizes.dies → IsDieOf kind lines d (die_at D.seen o.rack.slots.items d)) → at_home dies ≡ s.rack.slots.items → drive.dies ≡ o.sizes.dies →
        0 < drive.dies → StopsIn drive d (map D.seen dies) (map D.seen left) → RisesAt d (map D.seen dies) (map D.seen left) →
        IfSome (array.die_at (map D.seen dies) d).plan (FailsWithin (share_of drive d)) → IsLost kind lines drive (events_of h) true }
{}

/// A script's lines, what failed writes leave, and the calls without memory determine the run of one thread over dies in memory.
pub fn lines_determine()
    ensures { (encode : Core → ℕ → Page) (lines : List FaultLine) (left : ℕ → ℕ → Page) (c0 c1 c2 : Core) (script : Script) (last : Bool) (es fs : List Event) →
        OpeningFrames c0.shape → length script.lanes ≡ c0.shape.lanes → Coherent c0 → IsFresh c0 →
        SoloRun encode c0 script last es c1 → FailAsTold Mem lines es → LeaveAsTold left (λ d. unused (plan_of lines false d)) es →
        SoloRun encode c0 script last fs c2 → FailAsTold Mem lines fs → LeaveAsTold left (λ d. unused (plan_of lines false d)) fs →
        starved_of es ≡ starved_of fs → es ≡ fs }
{}

/// Without `fault` lines, over dies of any kind: no die event fails (*spared*), nor does gathering (*kept*); the calls without memory alone determine the
/// run of one thread (*same*); and where there are none, its replies are the plain machine's, in line order (*exact*).
pub fn unfaulted()
    ensures spared { (c0 c1 : Core) (kind : DieKind) (events : List Event) → Coherent c0 → CoreRun c0 events c1 → FailAsTold kind [] events → failures events ≡ 0 }
    ensures kept { (kind : DieKind) (drive : Drive) (events : List Event) → IsLost kind [] drive events true → ⊥ }
    ensures same { (encode : Core → ℕ → Page) (kind : DieKind) (c0 c1 c2 : Core) (script : Script) (last : Bool) (es fs : List Event) →
        OpeningFrames c0.shape → length script.lanes ≡ c0.shape.lanes → Coherent c0 → IsFresh c0 → SoloRun encode c0 script last es c1 → FailAsTold kind [] es →
        SoloRun encode c0 script last fs c2 → FailAsTold kind [] fs → starved_of es ≡ starved_of fs → es ≡ fs }
    ensures exact { (encode : Core → ℕ → Page) (kind : DieKind) (c0 c1 : Core) (script : Script) (last : Bool) (events : List Event) →
        OpeningFrames c0.shape → length script.lanes ≡ c0.shape.lanes → Coherent c0 → IsFresh c0 → ((lane : ℕ) → (c0.lanes lane).mark ≡ false) →
        SoloRun encode c0 script last events c1 → FailAsTold kind [] events → AreFed (calls_of events) →
        map (λ (e : Called). e.reply) (calls_of events) ≡ replies (plain c0) (line_calls script script.order) }
{}
