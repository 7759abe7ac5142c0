//! Laws of right readings, each the contract of a function with an empty body.

ghost use Rattle.std.specs.Prelude.{◌≡◌, ℕ, List, [], Option, Some, is_none, IsTrue, true, false};
ghost use Rattle.desk_expr.specs.declared.term.Term.{Term};
ghost use Rattle.desk_expr.specs.Tree.{Tree};
ghost use Rattle.desk_expr.specs.Meaning.{IsMinimal};
ghost use Rattle.desk_expr.specs.Printing.{printed_term};
ghost use Rattle.desk_expr.specs.Spelling.{SpellsTermWithin};
ghost use Rattle.desk_tokens.specs.Words.{is_reference};
ghost use Rattle.desk_expr.specs.Words.{is_term};
ghost use Rattle.desk_model.specs.Readings.{Readings};
ghost use Rattle.desk_base.specs.declared.profile.Profile.{Profile};
ghost use Rattle.desk_model.specs.declared.reading.Verdict.TheVariants.{Minimal};
ghost use Rattle.desk_model.specs.Answers.{IsHistory};
ghost use Rattle.desk_model.specs.History.{choice};
ghost use Rattle.desk_model.specs.declared.command.Command.{Command};
ghost use Rattle.desk_model.specs.declared.row.FrozenRow.{FrozenRow};
ghost use Rattle.desk_history.specs.Laws.{IsFrozenTerm, ListsInOrder, ListsOnce};
ghost use Rattle.desk_history_laws.specs.Ids.{ListsIds};
ghost use Rattle.desk_model.specs.declared.finding.Finding.{Finding};
ghost use Rattle.desk_findings.specs.Findings.{AreFindings};
ghost use Rattle.desk_tagvalue.specs.Parts.{DocumentText};
ghost use Rattle.desk_history_laws.specs.Forms.{adopted_form, is_plain_licence, reference_of};
ghost use Rattle.desk_history_laws.specs.Held.{AreMinimalFor};
ghost use Rattle.desk_texts.specs.Expressions.{IsExpression};
ghost use Rattle.desk_texts.specs.Listings.{Lists, Prices};
ghost use Rattle.desk_texts.specs.Terms.{AreTerms};
ghost use Rattle.desk_texts.specs.Right.{AreRight};

/// There is a right reading of texts.
pub fn right_reading_exists()
    ensures { (w : Readings) × AreRight w }
{}

/// All right readings say the same about each text.
pub fn one_right_reading()
    ensures terms { (v w : Readings) → AreRight v → AreRight w → (text : List ℕ)
        → v.term text ≡ w.term text }
    ensures references { (v w : Readings) → AreRight v → AreRight w → (term : List ℕ)
        → v.reference term ≡ w.reference term }
    ensures catalogues { (v w : Readings) → AreRight v → AreRight w → (text : List ℕ)
        → v.catalogue text ≡ w.catalogue text }
    ensures documents { (v w : Readings) → AreRight v → AreRight w → (bytes : List ℕ)
        → v.document bytes ≡ w.document bytes }
    ensures licences { (v w : Readings) → AreRight v → AreRight w → (term : List ℕ)
        → v.is_licence term ≡ w.is_licence term }
    ensures adopted { (v w : Readings) → AreRight v → AreRight w → (licence term : List ℕ)
        → v.adopted_as licence term ≡ w.adopted_as licence term }
    ensures licence_ids { (v w : Readings) → AreRight v → AreRight w → (term : List ℕ)
        → v.licence_id term ≡ w.licence_id term }
    ensures exceptions { (v w : Readings) → AreRight v → AreRight w → (term : List ℕ)
        → v.exception term ≡ w.exception term }
    ensures licence_texts { (v w : Readings) → AreRight v → AreRight w → (text id : List ℕ)
        → v.licence_text text id ≡ w.licence_text text id }
    ensures faults { (v w : Readings) → AreRight v → AreRight w
        → (profile : Profile) (text : List ℕ)
        → v.expression_fault profile text ≡ w.expression_fault profile text }
    ensures expressions { (v w : Readings) → AreRight v → AreRight w
        → (profile : Profile) (text : List ℕ)
        → v.is_expression profile text ≡ w.is_expression profile text }
    ensures verdicts { (v w : Readings) → AreRight v → AreRight w
        → (profile : Profile) (text : List ℕ) (words : List (List ℕ))
        → v.verdict profile text words ≡ w.verdict profile text words }
    ensures alternatives { (v w : Readings) → AreRight v → AreRight w
        → (profile : Profile) (text : List ℕ)
        → v.alternatives profile text ≡ w.alternatives profile text }
    ensures listed_terms { (v w : Readings) → AreRight v → AreRight w
        → (profile : Profile) (text : List ℕ) → v.terms profile text ≡ w.terms profile text }
    ensures cheapest { (v w : Readings) → AreRight v → AreRight w
        → (profile : Profile) (text : List ℕ) (cost : List ℕ → Option ℕ)
        → v.cheapest profile text cost ≡ w.cheapest profile text cost }
    ensures findings { (v w : Readings) → AreRight v → AreRight w
        → (profile : Profile) (bytes : List ℕ)
        → v.findings profile bytes ≡ w.findings profile bytes }
{}

/// If a right reading calls terms minimal, they are a minimal set for the expression that the text
/// spells by the same profile of operators.
pub fn choices_are_minimal_sets()
    ensures { (w : Readings) → AreRight w
        → (profile : Profile) (text : List ℕ) (words : List (List ℕ))
        → w.verdict profile text words ≡ Minimal → (e : Tree) × (ts : List Term)
        × IsExpression profile text e × AreTerms words ts × IsMinimal ts e }
{}

/// The terms that a release holds for a package are, as a set, minimal for the expression that is
/// concluded for the package now; and those that a release was frozen with were minimal at its
/// freeze.
pub fn held_terms_are_minimal_sets()
    ensures held { (w : Readings) (h : List Command) (r : List ℕ) (d : ℕ) (p : List ℕ) → AreRight w
        → IsHistory w h → (choice w h r d p ≡ [] → ⊥) → AreMinimalFor w h d p (choice w h r d p) }
    ensures frozen { (w : Readings) (h : List Command) (f : FrozenRow) → AreRight w → IsHistory w h
        → (is : IsFrozenTerm w h f) → AreMinimalFor w is.before is.row.document is.row.id
        (choice w is.before f.release is.row.document is.row.id) }
{
    desk_history::held_choices_are_minimal();
    desk_history::frozen_terms_were_held();
    choices_are_minimal_sets();
}

/// A right reading doesn't call an empty list of terms minimal: no spelled expression is true under
/// no terms, so a choice that is held has a term.
pub fn choices_have_terms()
    ensures { (w : Readings) → AreRight w → (profile : Profile) (text : List ℕ)
        → w.verdict profile text [] ≡ Minimal → ⊥ }
{}

/// A right reading lists no package of a document and no code of a rule twice, so no two duties of
/// a desk have the same key (`keys_are_distinct` of `desk_history`).
pub fn right_readings_list_once()
    ensures { (w : Readings) → AreRight w → ListsOnce w }
{}

/// A right reading lists a catalogue's rules by term and form, a rule's codes in order, and a
/// document's packages and references by id, so the duties of a freeze are numbered in their order
/// (`freezes_raise_in_order` of `desk_history`), and the tables in the order of the reading are
/// sorted (`listed_tables_are_sorted`).
pub fn right_readings_list_in_order()
    ensures { (w : Readings) → AreRight w → ListsInOrder w }
{}

/// By a right reading each code of a rule is an idstring (SPDX 2.3, Annex D.2), so a file can hold
/// the tables of each history and the change of each command (`tables_are_orderly` and
/// `changes_can_be_written` of `desk_laws::tables`).
pub fn right_readings_list_ids()
    ensures { (w : Readings) → AreRight w → ListsIds w }
{}

/// A right reading prints the term that a text spells, which is well formed. What it says about a
/// printed term is true of the term: the reference that it names is its key, if that is a
/// reference, and otherwise the id of its licence is its key; its exception is the term's own; it
/// is a plain licence if its key is a licence id and it has neither plus nor exception; and adopted
/// as such a licence it is the term of that id, without a plus, with its own exception (SPDX 2.3,
/// Annex D.2 to D.4).
pub fn readings_speak_of_terms()
    ensures term { (w : Readings) → AreRight w → (text : List ℕ) (t : Term)
        → SpellsTermWithin text t
        → (w.term text ≡ Some (printed_term t)) × IsTrue (is_term t) }
    ensures reference { (w : Readings) → AreRight w → (t : Term) → IsTrue (is_term t)
        → w.reference (printed_term t) ≡ reference_of t }
    ensures licence { (w : Readings) → AreRight w → (t : Term) → IsTrue (is_term t)
        → w.is_licence (printed_term t) ≡ is_plain_licence t }
    ensures adopted { (w : Readings) → AreRight w → (licence t : Term)
        → is_plain_licence licence ≡ true
        → IsTrue (is_term t)
        → w.adopted_as (printed_term licence) (printed_term t)
        ≡ printed_term (adopted_form licence t) }
    ensures licence_id { (w : Readings) → AreRight w → (t : Term) → IsTrue (is_term t)
        → is_reference t.key ≡ false → w.licence_id (printed_term t) ≡ t.key }
    ensures exception { (w : Readings) → AreRight w → (t : Term) → IsTrue (is_term t)
        → w.exception (printed_term t) ≡ t.exception }
{
    desk_alts::laws::spelled_terms_are_well_formed();
}

/// By a right reading a text is an expression if and only if it has no fault.
pub fn expressions_have_no_fault()
    ensures { (w : Readings) → AreRight w → (profile : Profile) (text : List ℕ)
        → w.is_expression profile text ≡ is_none (w.expression_fault profile text) }
{}

/// What a right reading lists for an expression is all its minimal sets, each once and in the order
/// of sets, and nothing else; otherwise it reports that the expression has more than 128 terms, or
/// that it has no more than these, but a front with more than 64 minimal sets.
pub fn listings_are_all_minimal_sets()
    ensures { (w : Readings) → AreRight w → (profile : Profile) (text : List ℕ)
        → Lists profile text (w.alternatives profile text) }
{}

/// The cheapest set of a right reading is the least of all sets, minimal or not, under which the
/// expression is true and whose terms have costs; the reading reports none if no such set exists.
pub fn cheapest_sets_are_least()
    ensures { (w : Readings) → AreRight w → (profile : Profile) (text : List ℕ) (cost : List ℕ
        → Option ℕ) → Prices profile text cost (w.cheapest profile text cost) }
{}

/// A document has exactly one list of findings, however texts are read as expressions.
pub fn findings_are_one_list()
    ensures some { (reads : List ℕ → Option Tree) (d : DocumentText) → (found : List Finding)
        × AreFindings reads d found }
    ensures one { (reads : List ℕ → Option Tree) (d : DocumentText) (a b : List Finding)
        → AreFindings reads d a → AreFindings reads d b → a ≡ b }
{}
