//! Laws of licence expressions that follow from the definitions only, each the contract of a
//! function with an empty body.
//!
//! What a text spells (`SpellsWithinBy`) and how well a choice of terms does (`Holds`, `CanGo`,
//! `IsMinimal`) are relations of `desk_expr`, and a relation may hold for nothing. A contract about
//! any tree that a text spells means something only if each text is known to spell a tree or to
//! spell none. `tree_or_none` says that, and `verdict_exists` says that each choice has a verdict.
//! Both are constructive: each is a function that decides, so a reader of texts and a judge of
//! choices that meet the definitions exist, however much memory is left.
//!
//! If a text spells nothing, `some_stop` and `some_term_stop` say that it stops at some place for
//! some reason, and `one_stop` and `one_term_stop` that it has only one such stop.
//!
//! Each term that a text spells is well formed (`spelled_terms_are_well_formed`), and well-formed
//! terms sort as their texts (`terms_sort_as_their_texts`).
//!
//! A tree has one listing of its minimal sets, and one cheapest set or none (`minimal_sets`).
//!
//! That a text spells at most one tree is the clause `only` of `desk_expr::parse_in`, and that a
//! choice has only one verdict is `one_verdict`.

pub mod minimal_sets;

ghost use Rattle.std.specs.Prelude.{◌≡◌, ◌⊎◌, ◌<◌, ℕ, List, Contains, IsTrue};
ghost use Rattle.std.specs.Ordering.{nat_cmp};
ghost use Rattle.std.specs.Cmp.Lexicographic.{slice_cmp};
ghost use Rattle.desk_expr.specs.declared.fault.ParseFault.{ParseFault};
ghost use Rattle.desk_expr.specs.Faults.{fault_number};
ghost use Rattle.desk_expr.specs.Grammar.{SpellsTree, SpellsTerm};
ghost use Rattle.desk_expr.specs.declared.term.Term.{Term};
ghost use Rattle.desk_expr.specs.Meaning.{Holds, CanGo, IsFirst, IsMinimal};
ghost use Rattle.desk_expr.specs.Occurring.{term_order};
ghost use Rattle.desk_expr.specs.Printing.{printed_term};
ghost use Rattle.desk_expr.specs.Words.{is_term};
ghost use Rattle.desk_expr.specs.Tree.{Tree};
ghost use Rattle.desk_expr.specs.Spelling.{SpellsWithinBy, SpellsTermWithinBy, IsStopBy};
ghost use Rattle.desk_base.specs.declared.profile.Profile.{Profile};

/// Under each profile of operators, a text either spells a tree within the limits or spells none.
pub fn tree_or_none()
    ensures { (profile : Profile) (text : List ℕ) → ((e : Tree) × SpellsWithinBy profile text e)
        ⊎ ((e : Tree) → SpellsWithinBy profile text e → ⊥) }
{}

/// A list of terms doesn't satisfy a tree; or it does, and there is a first place whose term can be
/// left out; or it is minimal.
pub fn verdict_exists()
    ensures { (e : Tree) (chosen : List Term) → (¬ Holds (Contains chosen) e)
        ⊎ ((Holds (Contains chosen) e × (i : ℕ) × IsFirst (CanGo chosen e) i)
        ⊎ IsMinimal chosen e) }
{}

/// It has only one such verdict: if a term can be left out, the list satisfies the tree and isn't
/// minimal, and there is only one first place.
pub fn one_verdict()
    ensures enough { (e : Tree) (chosen : List Term) (i : ℕ) → CanGo chosen e i
        → Holds (Contains chosen) e }
    ensures needless { (e : Tree) (chosen : List Term) (i : ℕ) → CanGo chosen e i
        → ¬ IsMinimal chosen e }
    ensures first { (e : Tree) (chosen : List Term) (i j : ℕ) → IsFirst (CanGo chosen e) i
        → IsFirst (CanGo chosen e) j → i ≡ j }
{}

/// No tree that a text spells holds without any term.
pub fn some_term_is_needed()
    ensures { (profile : Profile) (text : List ℕ) (e : Tree) → SpellsWithinBy profile text e
        → Holds (λ _. ⊥) e → ⊥ }
{}

/// A text that spells no tree within the limits has a stop other than lack of memory, which has the
/// number 0.
pub fn some_stop()
    ensures { (profile : Profile) (text : List ℕ) → ((e : Tree) → SpellsWithinBy profile text e → ⊥)
        → (f : ParseFault) × (0 < fault_number f) × IsStopBy SpellsTree profile text f }
{}

/// It has only one.
pub fn one_stop()
    ensures { (profile : Profile) (text : List ℕ) (f g : ParseFault) → 0 < fault_number f
        → 0 < fault_number g → IsStopBy SpellsTree profile text f
        → IsStopBy SpellsTree profile text g → f ≡ g }
{}

/// A text that spells no term has such a stop too.
pub fn some_term_stop()
    ensures { (profile : Profile) (text : List ℕ)
        → ((t : Term) → SpellsTermWithinBy profile text t → ⊥) → (f : ParseFault)
        × (0 < fault_number f) × IsStopBy SpellsTerm profile text f }
{}

/// It has only one.
pub fn one_term_stop()
    ensures { (profile : Profile) (text : List ℕ) (f g : ParseFault) → 0 < fault_number f
        → 0 < fault_number g → IsStopBy SpellsTerm profile text f
        → IsStopBy SpellsTerm profile text g → f ≡ g }
{}

/// A term that a text spells is well formed: its key is a folded id, perhaps with a plus, or a
/// reference, and its exception a folded id.
pub fn spelled_terms_are_well_formed()
    ensures { (profile : Profile) (text : List ℕ) (t : Term) → SpellsTermWithinBy profile text t
        → IsTrue (is_term t) }
{}

/// Well-formed terms sort as their printed texts do, byte by byte: what follows a key is a plus or
/// a blank, and both come before each byte of a key.
pub fn terms_sort_as_their_texts()
    ensures { (a b : Term) → IsTrue (is_term a) → IsTrue (is_term b)
        → slice_cmp nat_cmp (printed_term a) (printed_term b) ≡ term_order a b }
{}
