//! Laws: each is the contract of an empty function.
ghost use Rattle.std.specs.Prelude.{◌≡◌, ◌<◌, ◌≤◌, ℕ, List, length, true, false, Some, None};
ghost use Rattle.plain_files.specs.declared.calls.Reply.{Reply};
ghost use Rattle.plain_files.specs.declared.calls.Reply.TheVariants.{Fault};
ghost use Rattle.core_state.specs.State.{Page, Names, Frame, Phase, Flight, Core};
ghost use Rattle.core_state.specs.Reach.{is_data, is_lambda};
ghost use Rattle.core_state.specs.PlainOf.{plain, outcome_of, used_of, fuel_of};
ghost use Rattle.core_state.specs.PageEvents.{with_gathered};
ghost use Rattle.core_state.specs.EndEvent.{IsAtEnd, is_reported};
ghost use Rattle.core_state.specs.Coherent.{Coherent};
ghost use Rattle.core_state.specs.LaneEvents.{HasGathered};
ghost use Rattle.core_outcomes.specs.Known.{run_on};
ghost use Rattle.system_state.specs.Jobs.{JobView, view_of};
ghost use Rattle.span_bytes.specs.Spans.{page_in};
ghost use Rattle.call_answers.specs.Ends.{EndsAs};
ghost use Rattle.call_job.specs.Ends.{HasRun, MayEndWith};
ghost use Rattle.call_job.specs.Lending.{with_page};
ghost use Rattle.call_job.specs.Suits.{HasResult, IsReady, Suits, SameButRun, given};
ghost use Rattle.call_job.specs.Views.{TellsSame};
ghost use Rattle.call_job.specs.declared.job.Job.{Job};

/// A job that suits its call still does where it is told the same of it.
pub fn suits_kept()
    ensures { (job : Job) (old new : JobView) → TellsSame old new → Suits job old → Suits job new }
{}

/// Before its function runs, any page may lie at a place that isn't gathered yet; and where the call gathers one, it lies there.
pub fn suits_gathered()
    ensures written { (job : Job) (names : Names) (call : Flight) (i : ℕ) (page : List ℕ) → job.ran ≡ None → call.gathered i ≡ None → Suits job (view_of names call) → Suits (with_page job i page) (view_of names call) }
    ensures gathered { (job : Job) (names : Names) (call : Flight) (i : ℕ) (page : List ℕ) (frame : Frame) → job.ran ≡ None → i < length job.pages.items → call.gathered i ≡ None → Suits job (view_of names call) →
        Suits (with_page job i page) (view_of names (with_gathered call i page frame)) }
{}

/// A job that suits its call suits it in another phase, if it has the result that this phase asks for; and a run of its function keeps it so.
pub fn suits_run()
    ensures in_phase { (job : Job) (names : Names) (call : Flight) (phase : Phase) → HasResult job phase → Suits job (view_of names call) → Suits job (view_of names (record call { phase = phase })) }
    ensures executed { (old new : Job) (names : Names) (call : Flight) → SameButRun old new → IsReady new → HasResult new call.phase → Suits old (view_of names call) → Suits new (view_of names call) }
{}

/// A data call without a mark may end with what `finish` gave: its reply, the fuel that its function used, its file's length, and the
/// pages of its span. One with a mark may end with `fault`, and its pages go back as they were taken.
pub fn may_end()
    ensures unmarked { (c : Core) (lane : ℕ) (call : Flight) (job : Job) (reply : Reply) (used len : ℕ) (pages : List Page) → c.calls lane ≡ Some call → (c.lanes lane).mark ≡ false → IsAtEnd call → is_data call.claim.request.call ≡ true → HasGathered call →
        Suits job (view_of c.names call) → EndsAs c call reply len pages → job.reach.pages ≤ length pages →
        (is_lambda call.claim.request.call ≡ true → used ≡ used_of (outcome_of (plain c) call.claim.request.call) (fuel_of call.claim.request.call)) → MayEndWith c lane job.request reply used len pages }
    ensures marked { (c : Core) (lane : ℕ) (call : Flight) (job : Job) (used len : ℕ) → c.calls lane ≡ Some call → (c.lanes lane).mark ≡ true → IsAtEnd call → Suits job (view_of c.names call) →
        MayEndWith c lane job.request Fault used len job.pages.items }
{}

/// The function of a call has run where its owner executed it over the gathered pages, and where a worker has reported its result.
pub fn has_run()
    ensures executed { (c : Core) (lane : ℕ) (call : Flight) (old new : Job) → Coherent c → c.calls lane ≡ Some call → HasGathered call → Suits old (view_of c.names call) →
        given new ≡ Some (run_on old.request.call old.code.insns old.readable (page_in old.pages.items)) → HasRun c call new }
    ensures reported { (c : Core) (lane : ℕ) (call : Flight) (job : Job) → Coherent c → c.calls lane ≡ Some call → (c.lanes lane).mark ≡ false → is_reported call.phase ≡ true → Suits job (view_of c.names call) → HasRun c call job }
{}
