//! Laws of the recorded history, of what texts say and of what an audit requires, each the contract
//! of a function with an empty body.
//!
//! The definitions of `desk_model` go through the commands from the newest to the oldest. The laws
//! here say the same by filters and last entries, with the commands in the order in which they were
//! recorded: which documents, revisions and rules there are, which choices, conclusions and
//! adoptions are in force, and how each duty was moved. The rows of duties and of frozen terms are
//! described in both directions, with each field named; a frozen release's choices are its frozen
//! terms, and its bill stays as its freeze made it. Other laws say that a set of texts has the
//! texts that are listed, that a duty has few changes, and that written days sort as dates do.
//!
//! The desk's contracts hold for each reading of documents, catalogues, terms and expressions that
//! is right (`AreRight` of `desk_texts`). They would say nothing if there were none.
//! `right_reading_exists` says that there is one, `one_right_reading` that all say the same,
//! `choices_are_minimal_sets` what a right reading's verdict means in terms of the expressions,
//! `held_terms_are_minimal_sets` that what is held for a package is such a minimal set,
//! `readings_speak_of_terms` what it says about printed terms, `right_readings_list_ids` that codes
//! are ids, `choices_have_terms` that an empty choice is never minimal, `expressions_have_no_fault`
//! that a text is an expression if and only if it has no fault, `right_readings_list_once` that
//! nothing is listed twice, `right_readings_list_in_order` that everything is listed in order,
//! `listings_are_all_minimal_sets` that its alternatives are all minimal sets and
//! `cheapest_sets_are_least` that no set costs less than its cheapest.
//!
//! The reading is put together from what decides each part: each text spells a term or none
//! (`desk_catalogue`), a tree or none; each choice has a verdict, and each tree has one listing and
//! one cheapest set or none (`desk_alts::laws`); all bytes spell a document or have a fault
//! (`desk_findings::reading_laws`).
//!
//! The tables of each history meet the ten conditions of an audit (`snapshots`, `audits`).
#![tactic(auto)]

pub mod audits;
pub mod gaps;
mod readings;
pub mod snapshots;

ghost use Rattle.std.specs.Prelude.{◌≡◌, ◌≤◌, ◌+◌, ◌++◌, ◌∷◌, ℕ, Some, None, List, false, map, filter, length, reverse, IsTrue, is_some, unwrap_or};
ghost use Rattle.std.specs.List.{enumerate_from, flat_map, last_or, list_any};
ghost use Rattle.std.specs.Option.{option_and_then};
ghost use Rattle.std.specs.Result.{result_ok};
ghost use Rattle.std.specs.Ordering.{nat_cmp};
ghost use Rattle.std.specs.Cmp.Lexicographic.{slice_cmp};
ghost use Rattle.desk_base.specs.Day.{is_day};
ghost use Rattle.desk_model.specs.Answers.{IsHistory};
ghost use Rattle.desk_model.specs.Conclusions.{adoptions, conclusions, licence_given, text_given};
ghost use Rattle.desk_model.specs.History.{choice, documents, form_given, form_of, in_force, loaded, opened, packages, place_in, references, revision_of, revisions, rule_rows, rules_in, state_given, state_of};
ghost use Rattle.desk_model.specs.Keys.{below_by, is_rule_of};
ghost use Rattle.desk_model.specs.Lists.{IsIn};
ghost use Rattle.desk_model.specs.Moves.{changes, moves, place};
ghost use Rattle.desk_model.specs.Queries.{queried};
ghost use Rattle.desk_model.specs.Raised.{shipped};
ghost use Rattle.desk_model.specs.Readings.{Readings};
ghost use Rattle.desk_model.specs.Tables.{choices, tables};
ghost use Rattle.desk_model.specs.Texts.{is_before, sorted_set, text_below};
ghost use Rattle.desk_model.specs.declared.command.Answer.TheVariants as answered;
ghost use Rattle.desk_model.specs.declared.command.Command.{Command};
ghost use Rattle.desk_model.specs.declared.command.Command.TheVariants.{Freeze, OpenRelease};
ghost use Rattle.desk_model.specs.declared.command.Query.TheVariants.{Bill};
ghost use Rattle.desk_model.specs.declared.row.AdoptionRow.{AdoptionRow};
ghost use Rattle.desk_model.specs.declared.row.ChoiceRow.{ChoiceRow};
ghost use Rattle.desk_model.specs.declared.row.ConclusionRow.{ConclusionRow};
ghost use Rattle.desk_model.specs.declared.row.DutyRow.{DutyRow};
ghost use Rattle.desk_model.specs.declared.row.FrozenRow.{FrozenRow};
ghost use Rattle.desk_model.specs.declared.row.Move.{Move};
ghost use Rattle.desk_model.specs.declared.row.PackageRow.{PackageRow};
ghost use Rattle.desk_model.specs.declared.state.ReleaseState.TheVariants.{Frozen, IsOpen};
ghost use Rattle.desk_history.specs.FromTables.{rule_of};
ghost use Rattle.desk_history.specs.Laws.{IsFrozenTerm, Rises};
ghost use Rattle.desk_history_laws.specs.Billed.{bill_for, ListsPackagesOnce};
ghost use Rattle.desk_history_laws.specs.Dates.{date_order};
ghost use Rattle.desk_history_laws.specs.Filters.{document_row, freezes, given, imported, last_decision, last_given, opens, packages_of, references_of, revision_row, rules_of, terms_left};
ghost use Rattle.desk_history_laws.specs.OwnKeys.{HaveOwnKeys};
ghost use Rattle.desk_history_laws.specs.Moved.{left_by, moves_given, step_row, IsMove};
ghost use Rattle.desk_history_laws.specs.Shipping.{IsShipped};
ghost use Rattle.desk_history_laws.specs.Standing.{frozen_row, IsDutyRow};
ghost use Rattle.desk_history_laws.specs.Within.{AreWithin};
ghost use Rattle.desk_texts.specs.Right.{AreRight};

pub use readings::{
    cheapest_sets_are_least, choices_are_minimal_sets, choices_have_terms,
    expressions_have_no_fault, findings_are_one_list, held_terms_are_minimal_sets,
    listings_are_all_minimal_sets, one_right_reading, readings_speak_of_terms,
    right_reading_exists, right_readings_list_ids, right_readings_list_in_order,
    right_readings_list_once,
};

/// The revisions of the catalogue are the texts that were loaded, in order and numbered from 1, and
/// the rules of all revisions are those of each. The catalogue in force is that of the last text
/// loaded: in a recorded history there is one as soon as a text was loaded, and its rules are those
/// of the last revision.
pub fn catalogues_are_the_loads()
    ensures revisions { (h : List Command)
        → revisions h ≡ map revision_row (enumerate_from 1 (given loaded h)) }
    ensures rules { (w : Readings) (h : List Command)
        → rule_rows w h ≡ flat_map (rules_of w) (revisions h) }
    ensures last { (w : Readings) (h : List Command)
        → in_force w h ≡ option_and_then (λ text. result_ok (w.catalogue text))
        (last_given loaded h) }
    ensures some { (w : Readings) (h : List Command)
        → IsHistory w h → is_some (in_force w h) ≡ is_some (last_given loaded h) }
    ensures listed { (w : Readings) (h : List Command) → rules_in (in_force w h)
        ≡ map rule_of (filter (is_rule_of (length (given loaded h))) (rule_rows w h)) }
{}

/// The documents are those that were imported, in order and numbered from 1, and the packages and
/// references of all documents are those of each.
pub fn documents_are_the_imports()
    ensures documents { (w : Readings) (h : List Command)
        → documents w h ≡ map (document_row w) (enumerate_from 1 (given imported h)) }
    ensures packages { (w : Readings) (h : List Command)
        → packages w h ≡ flat_map (packages_of w) (documents w h) }
    ensures references { (w : Readings) (h : List Command)
        → references w h ≡ flat_map (references_of w) (documents w h) }
{}

/// A release has the form of its opening, and the state that the last Freeze or Withdraw of it gave
/// it, or open before these. Its place is one more than the number of releases opened before it,
/// and its revision is the number of catalogues loaded before its freeze, or 0 if it wasn't frozen.
pub fn releases_are_the_last_entries()
    ensures form { (h : List Command) (r : List ℕ) → form_of h r ≡ last_given (form_given r) h }
    ensures state { (h : List Command) (r : List ℕ)
        → state_of h r ≡ unwrap_or (last_given (state_given r) h) IsOpen }
    ensures place { (later before : List Command) (r form : List ℕ)
        → list_any (opens r) later ≡ false
        → place_in (opened (later ++ OpenRelease r form ∷ before)) r ≡ length (opened before) + 1 }
    ensures revision { (later before : List Command) (r day : List ℕ)
        → list_any (freezes r) later ≡ false
        → revision_of (later ++ Freeze r day ∷ before) r ≡ length (revisions before) }
    ensures unfrozen { (h : List Command) (r : List ℕ)
        → list_any (freezes r) h ≡ false → revision_of h r ≡ 0 }
{}

/// A release ships a package if and only if the package's document was attached to it and ships the
/// package.
pub fn shipped_exactly()
    ensures held { (w : Readings) (h : List Command) (r : List ℕ) (p : PackageRow)
        → IsShipped w h r p → IsIn p (shipped w h r) }
    ensures only { (w : Readings) (h : List Command) (r : List ℕ) (p : PackageRow)
        → IsIn p (shipped w h r) → IsShipped w h r p }
{}

/// What is chosen for a package in a release is what was left by the last command that decides it,
/// a Choose or an Unchoose of the package or a withdrawal of the release: the terms of a Choose,
/// and none after the others. The rows of the choices are these terms and no others.
pub fn choices_are_the_last_decisions()
    ensures last { (w : Readings) (h : List Command) (r : List ℕ) (d : ℕ) (p : List ℕ)
        → choice w h r d p ≡ terms_left w (last_decision r d p h) }
    ensures held { (w : Readings) (h : List Command) (row : ChoiceRow)
        → IsIn row.term (choice w h row.release row.document row.package_id)
        → IsIn row (choices w h) }
    ensures only { (w : Readings) (h : List Command) (row : ChoiceRow)
        → IsIn row (choices w h)
        → IsIn row.term (choice w h row.release row.document row.package_id) }
{
    desk_history::last_choice_stands();
}

/// The rows of the office's conclusions are, for each package, the text of the last Conclude of it,
/// and no others.
pub fn conclusions_are_the_last()
    ensures held { (h : List Command) (row : ConclusionRow)
        → last_given (text_given row.document row.package_id) h ≡ Some row.expression
        → IsIn row (conclusions h) }
    ensures only { (h : List Command) (row : ConclusionRow) → IsIn row (conclusions h)
        → last_given (text_given row.document row.package_id) h ≡ Some row.expression }
{}

/// The rows of the adoptions are, for each reference of a document, the licence of the last Adopt
/// of it, and no others.
pub fn adoptions_are_the_last()
    ensures held { (w : Readings) (h : List Command) (row : AdoptionRow)
        → last_given (licence_given w row.document row.reference) h ≡ Some row.licence
        → IsIn row (adoptions w h) }
    ensures only { (w : Readings) (h : List Command) (row : AdoptionRow) → IsIn row (adoptions w h)
        → last_given (licence_given w row.document row.reference) h ≡ Some row.licence }
{}

/// The moves of a duty, the first one first, are what the commands of the history give by the table
/// of moves, each of them considered after those before it. The duty's changes are these moves with
/// their steps from 1, and its state is the one in which the last of them left it.
pub fn moves_are_a_filter()
    ensures moves { (w : Readings) (h : List Command) (q : ℕ)
        → reverse (moves w h q) ≡ moves_given w h q }
    ensures changes { (w : Readings) (h : List Command) (q : ℕ)
        → changes w h q ≡ map (step_row q) (enumerate_from 1 (moves_given w h q)) }
    ensures place { (w : Readings) (h : List Command) (q : ℕ)
        → place w h q ≡ left_by (last_or None (moves_given w h q)) }
{}

/// A duty has a move if and only if the history has a command that moves it in this way after the
/// commands before it.
pub fn moved_exactly()
    ensures held { (w : Readings) (h : List Command) (q : ℕ) (m : Move)
        → IsMove w h q m → IsIn m (moves w h q) }
    ensures only { (w : Readings) (h : List Command) (q : ℕ) (m : Move)
        → IsIn m (moves w h q) → IsMove w h q m }
{}

/// A duty of a recorded history has at most 1,001 changes: Meet, Waive and Reopen are refused from
/// 999 on, the end of a waiver may be the 1,000th, and a withdrawal is the last one.
pub fn changes_are_few()
    ensures { (w : Readings) (h : List Command)
        → IsHistory w h → (q : ℕ) → length (changes w h q) ≤ 1001 }
{}

/// Written days compare as dates: by year, then by month, then by day, each as a number. So one day
/// is before another if and only if its date is.
pub fn days_compare_as_dates()
    ensures order { (a b : List ℕ)
        → IsTrue (is_day a) → IsTrue (is_day b) → slice_cmp nat_cmp a b ≡ date_order a b }
    ensures before { (a b : List ℕ)
        → IsTrue (is_day a) → IsTrue (is_day b) → is_before a b ≡ below_by date_order a b }
{}

/// A text is in the set of some texts if and only if it is one of them, and the set is sorted: no
/// text is in it twice.
pub fn sets_keep_their_members()
    ensures held { (text : List ℕ) (texts : List (List ℕ)) → IsIn text texts
        → IsIn text (sorted_set texts) }
    ensures only { (text : List ℕ) (texts : List (List ℕ)) → IsIn text (sorted_set texts)
        → IsIn text texts }
    ensures order { (texts : List (List ℕ)) → Rises text_below (sorted_set texts) }
{}

/// A row is in the duty table if and only if a duty with its number was raised and the row has the
/// duty's release, document, package, term and code, the rule as it is spelled, and the duty's
/// state.
pub fn duty_rows_exactly()
    ensures held { (w : Readings) (h : List Command) (row : DutyRow) → IsDutyRow w h row
        → let t = tables w h in IsIn row t.duty }
    ensures only { (w : Readings) (h : List Command) (row : DutyRow)
        → (let t = tables w h in IsIn row t.duty) → IsDutyRow w h row }
{
    desk_history::raised_exactly();
    desk_history::duties_are_numbered_on();
}

/// A row is in the table of frozen terms if and only if a freeze of its release is in the history,
/// and before it a document that ships the package was attached, the term was chosen for it, and
/// the catalogue in force had a rule for the term's adopted form, spelled as in the row. A release
/// of a recorded history is frozen only once: the same commands come before each freeze of it.
pub fn frozen_rows_exactly()
    ensures held { (w : Readings) (h : List Command) (row : FrozenRow) → IsFrozenTerm w h row
        → let t = tables w h in IsIn row t.frozen }
    ensures only { (w : Readings) (h : List Command) (row : FrozenRow)
        → (let t = tables w h in IsIn row t.frozen) → IsFrozenTerm w h row }
    ensures once { (w : Readings) (h later before later' before' : List Command)
        (r day day' : List ℕ)
        → IsHistory w h → h ≡ later ++ Freeze r day ∷ before → h ≡ later' ++ Freeze r day' ∷ before'
        → before ≡ before' }
{
    desk_history::frozen_terms_were_held();
}

/// A frozen release of a recorded history holds the terms that it was frozen with, and no others: a
/// term is held for a package if and only if a row of the frozen terms names the release, the
/// package and the term.
pub fn frozen_choices_are_the_frozen_terms()
    ensures held { (w : Readings) (h : List Command) (row : FrozenRow) → IsHistory w h
        → state_of h row.release ≡ Frozen → (let t = tables w h in IsIn row t.frozen)
        → IsIn row.term (choice w h row.release row.document row.package_id) }
    ensures only { (w : Readings) (h : List Command) (r : List ℕ) (d : ℕ) (p term : List ℕ)
        → IsHistory w h → state_of h r ≡ Frozen → IsIn term (choice w h r d p) → (rule : List ℕ)
        × (let t = tables w h in IsIn (frozen_row r d p term rule) t.frozen) }
{
    desk_history::frozen_terms_were_held();
}

/// The bill of a frozen release is that of its freeze: whatever is recorded while the release is
/// frozen, the answer stays the same, word for word.
pub fn bills_stay()
    ensures { (w : Readings) (later h : List Command) (r : List ℕ) → IsHistory w (later ++ h)
        → state_of h r ≡ Frozen → state_of (later ++ h) r ≡ Frozen
        → queried w (later ++ h) (Bill r) ≡ queried w h (Bill r) }
{}

/// The bill of a frozen release lists the packages that it shipped at its freeze, each with the
/// rules for the terms that were chosen for it, by the catalogue then in force and in the order of
/// terms, and the texts of these terms from that catalogue and the documents. This requires a
/// reading by which no document has two packages with the same id: otherwise each line would have
/// the rules of both.
pub fn bills_list_what_was_chosen()
    ensures { (w : Readings) (later before : List Command) (r day : List ℕ)
        → ListsPackagesOnce w → IsHistory w (later ++ Freeze r day ∷ before)
        → state_of (later ++ Freeze r day ∷ before) r ≡ Frozen
        → queried w (later ++ Freeze r day ∷ before) (Bill r)
        ≡ answered.Bill (bill_for w before r) }
{}

/// No two rows of a table of a recorded history have the same key, by each right reading of texts:
/// a namespace is imported once, a document is attached to a release once, a name is opened once,
/// at its own place, and a later conclusion, adoption or choice replaces the earlier one. So each
/// key that a database keeps unique occurs once.
pub fn keys_stand_once()
    ensures { (w : Readings) (h : List Command) → AreRight w → IsHistory w h
        → HaveOwnKeys (tables w h) }
{
    desk_history::listed_tables_are_sorted();
    desk_history::keys_are_distinct();
    desk_history::last_choice_stands();
    desk_history::frozen_terms_were_held();
    sets_keep_their_members();
    catalogues_are_the_loads();
    documents_are_the_imports();
    right_readings_list_in_order();
    right_readings_list_once();
}

/// There are no more rows in a recorded history than the desk's limits allow, and each names a
/// revision, a document or a duty that exists: a command that names another document is refused. A
/// duty's steps are few, and the days of its changes exist. So each number in a row is small.
pub fn rows_stay_within_limits()
    ensures { (w : Readings) (h : List Command) → IsHistory w h → AreWithin (tables w h) }
{
    desk_history::frozen_terms_were_held();
    desk_history::raised_exactly();
    sets_keep_their_members();
    choices_are_the_last_decisions();
    snapshots::duties_are_numbered_and_few();
    changes_are_few();
}
