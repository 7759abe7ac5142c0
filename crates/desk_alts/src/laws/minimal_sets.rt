//! Laws of the alternatives of a licence expression (SPDX 2.3, Annex D) and of its cheapest choice,
//! each the contract of a function with an empty body.
//!
//! `alternatives` and `cheapest` may report that no memory is left, so their contracts say what a
//! listing and a cheapest choice are, but not that they exist. The laws here say, from the
//! definitions only: each tree has one list of its distinct terms (`AreTermsOf`) and one list of
//! its minimal sets (`AreAlternatives`); either it can be listed or it has a fault, never both; and
//! it has one cheapest set (`IsCheapest`) or none with costs, whatever its terms cost. All of this
//! is constructive: a function answers each of these questions as the definitions say. Sets are
//! ordered by size first, and of sets with the same cost the first in this order is chosen.

ghost use Rattle.std.specs.Prelude.{◌≡◌, ◌⊎◌, ◌<◌, ◌∷◌, ◌++◌, ℕ, List, Option, Contains, length};
ghost use Rattle.std.specs.declared.cmp.Ordering.TheVariants.{Less};
ghost use Rattle.desk_expr.specs.declared.term.Term.{Term};
ghost use Rattle.desk_expr.specs.Meaning.{Holds};
ghost use Rattle.desk_expr.specs.Occurring.{AreTermsOf, term_order};
ghost use Rattle.desk_expr.specs.Tree.{Tree};
ghost use Rattle.desk_alts.specs.Costs.{HasCosts, HasNoCosts, IsCheapest, set_cost};
ghost use Rattle.desk_alts.specs.Faults.{IsListable};
ghost use Rattle.desk_alts.specs.Sets.{AreAlternatives, HasMoreTerms, HasWideFront, IsTermSet, set_order};

/// Each tree has a list of its distinct terms, in order.
pub fn terms_exist()
    ensures { (e : Tree) → (ts : List Term) × AreTermsOf e ts }
{}

/// It has only one.
pub fn one_list_of_terms()
    ensures { (e : Tree) (a b : List Term) → AreTermsOf e a → AreTermsOf e b → a ≡ b }
{}

/// Each tree can be listed, and has a list of its minimal sets; or it has more than 128 terms; or
/// it has no more than that, and a wide front. A tree that can be listed has neither fault.
pub fn listing_exists()
    ensures some { (e : Tree) → (IsListable e × (sets : List (List Term)) × AreAlternatives e sets)
        ⊎ (HasMoreTerms 128 e ⊎ ((HasMoreTerms 128 e → ⊥) × HasWideFront e)) }
    ensures no_fault { (e : Tree) → IsListable e → HasMoreTerms 128 e
        ⊎ ((HasMoreTerms 128 e → ⊥) × HasWideFront e) → ⊥ }
{}

/// Each tree has a list of its minimal sets, whether or not the limits allow listing it, and only
/// one.
pub fn one_listing()
    ensures some { (e : Tree) → (sets : List (List Term)) × AreAlternatives e sets }
    ensures one { (e : Tree) (a b : List (List Term)) → AreAlternatives e a → AreAlternatives e b
        → a ≡ b }
{}

/// Each tree has a cheapest set, or each set that satisfies it has a term without a cost.
pub fn cheapest_exists()
    ensures some { (cost : Term → Option ℕ) (e : Tree)
        → ((price : ℕ) × (set : List Term) × IsCheapest cost e price set) ⊎ HasNoCosts cost e }
    ensures not_both { (cost : Term → Option ℕ) (e : Tree) (price : ℕ) (set : List Term)
        → IsCheapest cost e price set → HasNoCosts cost e → ⊥ }
{}

/// It has only one.
pub fn one_cheapest()
    ensures { (cost : Term → Option ℕ) (e : Tree) (p q : ℕ) (s r : List Term)
        → IsCheapest cost e p s
        → IsCheapest cost e q r → (p ≡ q) × (s ≡ r) }
{}

/// A smaller set comes before a larger one, whatever their terms. Of two sets of one size, the one
/// with the lesser term comes first, at the first place where they differ.
pub fn sets_sort_by_size_first()
    ensures size { (few many : List Term) → length few < length many → set_order few many ≡ Less }
    ensures terms { (front s r : List Term) (t u : Term) → length s ≡ length r
        → term_order t u ≡ Less → set_order (front ++ (t ∷ s)) (front ++ (u ∷ r)) ≡ Less }
{}

/// A set that satisfies the tree and costs as little as the cheapest is that set, or comes after it
/// in the order of sets.
pub fn cheapest_is_the_first_of_its_cost()
    ensures { (cost : Term → Option ℕ) (e : Tree) (price : ℕ) (set s : List Term)
        → IsCheapest cost e price set → IsTermSet s → Holds (Contains s) e → HasCosts cost s
        → set_cost cost s ≡ price → (set ≡ s) ⊎ (set_order set s ≡ Less) }
{}
