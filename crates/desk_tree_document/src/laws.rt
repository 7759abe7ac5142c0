//! Laws of drafts (SPDX 2.3, clauses 6 to 8 and 11), each the contract of a function with an empty
//! body.
//!
//! A draft is written by `desk_tagvalue` and read by it as a document that says what the draft
//! says. These laws add what `desk_bom` says about each document that a draft's text spells: it
//! ships the draft's package and no other, and the package's verification code agrees with its
//! files. `drafts_ship` says so about any draft, `drafts_of_trees_ship` about those of `draft`.
//!
//! `joined_licences_are_all_of_them` says what the licences of a file or a package mean together.

ghost use Rattle.std.specs.Prelude.{◌≡◌, ◌≤◌, ◌∷◌, [], List, ℕ, length, All, Ok};
ghost use Rattle.desk_expr.specs.Listed.{EachSpells};
ghost use Rattle.desk_expr.specs.Spelling.{Spells, SpellsWithin};
ghost use Rattle.desk_expr.specs.Tree.{Tree, all, parts_of};
ghost use Rattle.desk_tree_document.specs.Drafts.{Named, draft_of};
ghost use Rattle.desk_tree_document.specs.Texts.{expression_of};
ghost use Rattle.desk_tree_document.specs.Shipping.{IsDigest, IsTextOf, ShipsWhenRead};
ghost use Rattle.desk_tree_infos.specs.Readers.{Reader};
ghost use Rattle.desk_tree_gather.specs.declared.files.SourceFile.{SourceFile};
ghost use Rattle.desk_tagvalue.specs.declared.drafts.Draft.{Draft};

/// What a draft's text spells ships the draft's package, and the package's code agrees, if the
/// draft's code is that of its files' digests.
pub fn drafts_ship()
    ensures { (d : Draft) (text : List ℕ) → All IsDigest d.files → IsTextOf d text
        → ShipsWhenRead d text }
{}

/// What the text of a tree's draft spells ships the draft's package, and the package's code agrees,
/// if the draft's code is that of its files' digests.
pub fn drafts_of_trees_ship()
    ensures { (r : Reader) (files : List SourceFile) (title : Named) (d : Draft) (text : List ℕ)
        → draft_of r files title d.code ≡ Ok d → IsTextOf d text → ShipsWhenRead d text }
{}

/// Two or more licences that spell trees are joined into a text that spells All of these trees, and
/// no other tree (SPDX 2.3, Annex D.4). One licence is not changed.
pub fn joined_licences_are_all_of_them()
    ensures one { (licence : List ℕ) → expression_of (licence ∷ []) ≡ licence }
    ensures several { (licences : List (List ℕ)) (trees : List Tree) → 2 ≤ length licences
        → EachSpells licences trees → Spells (expression_of licences) (all (parts_of trees)) }
    ensures read { (licences : List (List ℕ)) (trees : List Tree) → 2 ≤ length licences
        → EachSpells licences trees → (e : Tree) → SpellsWithin (expression_of licences) e
        → e ≡ all (parts_of trees) }
{}
