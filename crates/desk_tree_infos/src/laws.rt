//! Which annotation of a REUSE.toml counts, stated only in terms of the patterns.

ghost use Rattle.std.specs.Prelude.{◌≡◌, ◌∷◌, ◌++◌, ℕ, List, Some, None, All};
ghost use Rattle.desk_tree_annotations.specs.declared.annotation.Annotation.{Annotation};
ghost use Rattle.desk_tree_infos.specs.Counting.{Covers};
ghost use Rattle.desk_tree_infos.specs.Information.{counting_in};
ghost use Rattle.desk_tree_infos.specs.Readers.{Reader, IsRightReader};
ghost use Rattle.desk_tree_infos.specs.Tomls.{TomlText, annotations_in};
ghost use Rattle.desk_tree_infos.specs.Ways.{way};

/// Of the annotations of a folder that cover a path relative to it, the last counts (REUSE
/// Specification 3.3, "REUSE.toml"). If none covers it, none counts.
pub fn last_annotation_counts()
    ensures last { (r : Reader) → IsRightReader r → (tomls : List TomlText) (path rest : List ℕ)
        (before after : List Annotation) (a : Annotation)
        → annotations_in tomls (way path rest) ≡ before ++ (a ∷ after) → Covers rest a
        → All (λ b. Covers rest b → ⊥) after → counting_in r tomls path rest ≡ Some a }
    ensures none { (r : Reader) → IsRightReader r → (tomls : List TomlText) (path rest : List ℕ)
        → All (λ b. Covers rest b → ⊥) (annotations_in tomls (way path rest))
        → counting_in r tomls path rest ≡ None }
{}
