//! Laws of looks, each the contract of a function with an empty body: which row counts if several
//! hold, and what looks like nothing.

ghost use Rattle.std.specs.Prelude.{◌≡◌, ◌++◌, ℕ, List, None, Some, codes, take, true};
ghost use Rattle.desk_looks.specs.Looks.{has_word, look_of, zip_start};
ghost use Rattle.desk_looks.specs.declared.look.Look.TheVariants as looks;

/// Of XML that has the namespace of CycloneDX among its first bytes, nothing else counts.
pub fn cyclonedx_counts_first()
    ensures { (rest : List ℕ)
        → has_word (codes "http://cyclonedx.org/schema/bom/") (take 4096 (codes "<" ++ rest)) ≡ true
        → look_of (codes "<" ++ rest) ≡ Some looks.CycloneDxXml }
{}

/// A spreadsheet is an archive too, and counts as a spreadsheet.
pub fn spreadsheets_count_before_archives()
    ensures { (rest : List ℕ)
        → has_word (codes "xl/") (take 4096 (zip_start ++ rest)) ≡ true
        → look_of (zip_start ++ rest) ≡ Some looks.Spreadsheet }
{}

/// A tag-value document that begins with its version looks like nothing, whatever follows.
#[tactic(auto, unfolding(crate::specs::Looks::look_of))]
pub fn tag_values_look_like_nothing()
    ensures { (rest : List ℕ) → look_of (codes "SPDXVersion: " ++ rest) ≡ None }
{}
