//! Laws of the definitions.
ghost use Rattle.std.specs.Prelude.{◌≡◌, ◌↔◌, true, ℕ, List, []};
ghost use Rattle.plain_files.specs.declared.calls.Reply.{Reply};
ghost use Rattle.plain_files.specs.declared.calls.Request.{Request};
ghost use Rattle.plain_files.specs.Plain.{State};
ghost use Rattle.history_check.specs.Histories.{IsHistory};
ghost use Rattle.history_check.specs.Replies.{is_same_reply};
ghost use Rattle.history_check.specs.Verdicts.{Line, verdict};
ghost use Rattle.history_check.specs.declared.verdict.Verdict.TheVariants.{Legal};

/// A law: replies that have one form and the same values are equal.
pub fn same_replies_are_equal()
    ensures { (a b : Reply) → (is_same_reply a b ≡ true) ↔ (a ≡ b) }
{}

/// A law: the verdict is `Legal` exactly where the lines are those of a legal history that serves the
/// lanes.
pub fn legal_exactly()
    ensures legal { (lanes : List (List Request)) (first : State) (lines : List Line) (calls : ℕ)
        → verdict lanes first [] lines ≡ Legal calls → (last : State) × IsHistory lanes first lines last }
    ensures history { (lanes : List (List Request)) (first last : State) (lines : List Line)
        → (h : IsHistory lanes first lines last) → (calls : ℕ) × (verdict lanes first [] lines ≡ Legal calls) }
{}
