//! Laws of documents without idle files, each the contract of a function with an empty body: nothing
//! but idle files and what names them is lost. `desk_spdx_files` has the law that nothing ships by
//! way of them.

ghost use Rattle.std.specs.Prelude.{◌≡◌, ℕ, List, false, codes};
ghost use Rattle.serde_json.specs.Data.{Data};
ghost use Rattle.desk_spdx_files.specs.Files.{is_idle};
ghost use Rattle.desk_spdx_json.specs.declared.parts.Part.TheVariants as parts;
ghost use Rattle.desk_spdx_json.specs.Documents.{all_parts, document_steps};
ghost use Rattle.desk_spdx_json.specs.Files.{needed_steps};
ghost use Rattle.desk_spdx_json.specs.Kept.{kept_steps};
ghost use Rattle.desk_spdx_json.specs.Losses.{ContainsIdle, IsWithout, document_in};
ghost use Rattle.desk_spdx_json.specs.Parts.{part_steps};
ghost use Rattle.desk_spdx_json.specs.Values.{word_in};

/// If no file of a document is idle, nothing of it is left out.
pub fn needed_files_are_kept()
    ensures { (d : Data) → ((id : List ℕ) → is_idle (document_in d) id ≡ false)
        → needed_steps d ≡ document_steps d }
{}

/// The steps of snippets and of extracted licences stay. So do those of packages, but for the
/// relationships by which they CONTAIN idle files.
pub fn other_elements_are_kept()
    ensures snippets { (d : Data) (at : List ℕ) → all_parts (kept_steps (is_idle d)) parts.Snippet at d
        ≡ all_parts part_steps parts.Snippet at d }
    ensures licences { (d : Data) (at : List ℕ)
        → all_parts (kept_steps (is_idle d)) parts.Extracted at d
        ≡ all_parts part_steps parts.Extracted at d }
    ensures packages { (d p : Data) (at : List ℕ)
        → IsWithout (ContainsIdle (is_idle d) (word_in (codes "SPDXID") p))
        (part_steps parts.Package at p) (kept_steps (is_idle d) parts.Package at p) }
{}
