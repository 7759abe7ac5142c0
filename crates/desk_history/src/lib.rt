//! The laws of the recorded history, each as the contract of a function with an empty body: they
//! say in terms of the subject what the definitions of `desk_model` amount to. `answers` has the
//! laws of the answers to commands, `row_laws` those of the rows of answers. `proofs/` has the
//! lemmas by which the desk's code, which sees only rows, keeps the tables of a history.
#![tactic(auto)]

pub mod answers;
pub mod row_laws;

ghost use Rattle.std.specs.Prelude.{◌≡◌, ◌⊎◌, true, false, ℕ, ◌+◌, ◌++◌, [], ◌∷◌, List, map, filter};
ghost use Rattle.desk_model.specs.Conclusions.{adoptions, conclusions, licence_for, licence_given, office_text, text_given};
ghost use Rattle.desk_model.specs.Lists.{IsIn, latest};
ghost use Rattle.desk_model.specs.Readings.{Readings};
ghost use Rattle.desk_model.specs.Keys.{below_by, is_choice_of};
ghost use Rattle.desk_model.specs.History.{choice};
ghost use Rattle.desk_model.specs.Raised.{frozen, numbered, owed_at, raised, IsRaised};
ghost use Rattle.desk_model.specs.Tables.{tables, standing, choice_row};
ghost use Rattle.desk_model.specs.Answers.{answer, noted, IsHistory};
ghost use Rattle.desk_model.specs.Queries.{duties_of, totals_of};
ghost use Rattle.desk_history.specs.Laws.{AreSorted, IsFrozenTerm, IsHeldMinimal, IsMinimalChoice, IsNumbered, AreDistinct, key_of, ListsOnce, IsToldBy};
ghost use Rattle.desk_model.specs.declared.row.Owed.{Owed};
ghost use Rattle.desk_model.specs.declared.row.DutyRow.{DutyRow};
ghost use Rattle.desk_model.specs.declared.row.FrozenRow.{FrozenRow};
ghost use Rattle.desk_model.specs.declared.command.Command.{Command};
ghost use Rattle.desk_model.specs.Moves.{moves, place, is_raised_for};
ghost use Rattle.desk_model.specs.States.{is_met};
ghost use Rattle.desk_history.specs.Laws.{IsOver, AreNumberedInOrder, AreSortedAsListed, IsCounted, ListsInOrder, Rises, duty_order, owed_order};
ghost use Rattle.desk_model.specs.declared.state.DutyState.TheVariants.{IsOpen, Met, Withdrawn};
ghost use Rattle.desk_model.specs.declared.command.Command.TheVariants.{Choose, CloseDay, Withdraw};

/// A duty is raised if and only if a freeze of its release is in the history, and before it a
/// document that ships the package was attached, the term was chosen for it, and the catalogue in
/// force owed the code for the term's adopted form.
pub fn raised_exactly()
    ensures held { (w : Readings) (h : List Command) (d : Owed) → IsRaised w h d
        → IsIn d (raised w h) }
    ensures only { (w : Readings) (h : List Command) (d : Owed) → IsIn d (raised w h)
        → IsRaised w h d }
{}

/// The duties with their numbers are those of the freezes of the history. Numbers begin at 1, and
/// each freeze continues after all that the freezes before it raised. A number that was given
/// stays, whatever is recorded later.
pub fn duties_are_numbered_on()
    ensures held { (w : Readings) (h : List Command) (d : ℕ × Owed)
        → IsNumbered w h d → IsIn d (numbered w h) }
    ensures only { (w : Readings) (h : List Command) (d : ℕ × Owed)
        → IsIn d (numbered w h) → IsNumbered w h d }
    ensures stays { (w : Readings) (later before : List Command) (d : ℕ × Owed)
        → IsIn d (numbered w before) → IsIn d (numbered w (later ++ before)) }
{}

/// What a freeze raises is sorted by document, package, term and code, no two with the same key, if
/// the reading of texts lists packages and codes in order (`order`). So of two duties of one
/// release the one with the smaller number comes first (`numbers`), and a duty's number is one more
/// than the number of duties that earlier freezes raised or that come before it in its own freeze
/// (`counts`).
pub fn freezes_raise_in_order()
    ensures order { (w : Readings) (h : List Command) (r : List ℕ)
        → ListsInOrder w → IsHistory w h → Rises (below_by owed_order) (owed_at w h r) }
    ensures numbers { (w : Readings) (h : List Command)
        → ListsInOrder w → IsHistory w h → let t = tables w h in AreNumberedInOrder t.duty }
    ensures counts { (w : Readings) (h : List Command) (d : ℕ × Owed)
        → ListsInOrder w → IsHistory w h → IsIn d (numbered w h) → IsCounted w h d }
{}

/// Each choice that was recorded is a minimal set of its package's concluded expression.
pub fn choices_are_minimal()
    ensures { (w : Readings) (h later before : List Command) (r : List ℕ) (d : ℕ) (p : List ℕ)
        (texts : List (List ℕ)) → IsHistory w h → h ≡ later ++ Choose r d p texts ∷ before
        → IsMinimalChoice w before d p texts }
{}

/// A choice that is held for a package is a minimal set of terms for the expression that is
/// concluded for the package now, not only for the one concluded when the choice was made. Nothing
/// is held if nothing was chosen.
pub fn held_choices_are_minimal()
    ensures { (w : Readings) (h : List Command) (r : List ℕ) (d : ℕ) (p : List ℕ)
        → IsHistory w h → (choice w h r d p ≡ [] → ⊥) → IsHeldMinimal w h d p (choice w h r d p) }
{}

/// Each term that a release was frozen with was held at that time for a package that the release
/// shipped, and what was held for the package was then a minimal set of terms for its concluded
/// expression.
pub fn frozen_terms_were_held()
    ensures held { (w : Readings) (h : List Command) (f : FrozenRow)
        → IsIn f (frozen w h) → IsFrozenTerm w h f }
    ensures minimal { (w : Readings) (h : List Command) (f : FrozenRow)
        → IsHistory w h → (is : IsFrozenTerm w h f)
        → IsHeldMinimal w is.before is.row.document is.row.id
        (choice w is.before f.release is.row.document is.row.id) }
{}

/// The choice in force for a package is the last one.
pub fn last_choice_stands()
    ensures { (w : Readings) (h : List Command) (r : List ℕ) (d : ℕ) (p : List ℕ)
        → filter (is_choice_of r d p) (standing w h) ≡ map (choice_row r d p) (choice w h r d p) }
{}

/// The last conclusion of the office for a package is its conclusion, and the last licence that a
/// reference of a document was adopted as is its licence.
pub fn last_conclusions_and_adoptions_stand()
    ensures conclusions { (h : List Command) (d : ℕ) (p : List ℕ)
        → office_text (conclusions h) d p ≡ latest (text_given d p) h }
    ensures adoptions { (w : Readings) (h : List Command) (d : ℕ) (reference : List ℕ)
        → licence_for (adoptions w h) d reference ≡ latest (licence_given w d reference) h }
{}

/// The duties of a release that are open, met, waived and withdrawn add up to all that it raised.
pub fn totals_add_up()
    ensures { (w : Readings) (h : List Command) (r : List ℕ) → let totals = totals_of (duties_of w h r) in
        totals.raised ≡ totals.still_open + totals.met + totals.waived + totals.withdrawn }
{}

/// No two duties of the table have the same key, if the reading of texts lists no package of a
/// document and no code of a rule twice: a release is frozen once, a document is attached once, and
/// a choice is a set of terms.
pub fn keys_are_distinct()
    ensures { (w : Readings) (h : List Command) → ListsOnce w → IsHistory w h → let t = tables w h in
        AreDistinct (map key_of t.duty) }
{}

/// The state of a duty in the table is the one in which the last of its changes in the table left
/// it: open after it was raised, reopened or its waiver ended, met after a Meet, waived after a
/// Waive, withdrawn after a withdrawal.
pub fn each_place_is_told()
    ensures { (w : Readings) (h : List Command) (duty : DutyRow) → let t = tables w h in
        IsIn duty t.duty → IsToldBy t.changes duty }
{}

/// A withdrawal leaves a met duty as it is, withdraws each other duty of its release, and leaves
/// the release without a choice.
pub fn withdrawals_leave_met_duties()
    ensures met { (w : Readings) (h : List Command) (r day text : List ℕ) (q : ℕ)
        → place w h q ≡ Met → moves w (Withdraw r day text ∷ h) q ≡ moves w h q }
    ensures others { (w : Readings) (h : List Command) (r day text : List ℕ) (q : ℕ)
        → is_raised_for w h q r ≡ true → is_met (place w h q) ≡ false
        → place w (Withdraw r day text ∷ h) q ≡ Withdrawn }
    ensures choices { (w : Readings) (h : List Command) (r day text : List ℕ) (d : ℕ) (p : List ℕ)
        → choice w (Withdraw r day text ∷ h) r d p ≡ [] }
{}

/// A CloseDay moves a duty only if its last move is a waiver whose last day is before that day, and
/// then opens it.
pub fn waivers_end_after_their_last_day()
    ensures ends { (w : Readings) (h : List Command) (day : List ℕ) (q : ℕ)
        → IsOver w h day q → place w (CloseDay day ∷ h) q ≡ IsOpen }
    ensures only { (w : Readings) (h : List Command) (day : List ℕ) (q : ℕ)
        → (moves w (CloseDay day ∷ h) q ≡ moves w h q) ⊎ IsOver w h day q }
{}

/// The tables of each list of commands, for each reading of texts, are sorted by their keys: no row
/// comes after one that it should precede. The rules of a revision, and a document's packages and
/// references, are in the order in which texts list them (`listed_tables_are_sorted`).
pub fn tables_are_sorted()
    ensures { (w : Readings) (h : List Command) → AreSorted (tables w h) }
{}

/// The rules of all revisions are sorted by revision, term and form, the packages of all documents
/// by document and id, and the extracted licences by document and reference, no two with the same
/// key, if the reading of texts lists each catalogue's rules and each document's packages and
/// references in such an order.
pub fn listed_tables_are_sorted()
    ensures { (w : Readings) (h : List Command) → ListsInOrder w → AreSortedAsListed (tables w h) }
{}

/// A recorded history with a recorded command is a recorded history.
pub fn histories_grow()
    ensures { (w : Readings) (h : List Command) (c : Command) → IsHistory w h
        → IsHistory w (noted w h c) }
{}
