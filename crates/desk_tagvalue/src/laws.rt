//! Laws of the documents that are read.

ghost use Rattle.std.specs.Prelude.{◌≡◌, ℕ, List, Ok, codes, false, nat_eq, true};
ghost use Rattle.std.specs.List.{starts_with};
ghost use Rattle.desk_fields.specs.Tags.{same_tag, tag_name};
ghost use Rattle.desk_fields.specs.declared.tag.Tag.{Tag};
ghost use Rattle.desk_fields.specs.declared.tag.Tag.TheVariants as tags;
ghost use Rattle.desk_tagvalue.specs.Columns.{HasColumns, HaveEachOnce};
ghost use Rattle.desk_tagvalue.specs.Documents.{Spells};
ghost use Rattle.desk_tagvalue.specs.Parts.{DocumentText};
ghost use Rattle.desk_tagvalue.specs.Sections.{is_package, is_placed};
ghost use Rattle.desk_tagvalue.specs.declared.sections.SectionKind.{SectionKind};

/// Each tag but Creator, FileChecksum, LicenseInfoInFile and Relationship is at most once in its
/// part of a document, and each column has the value of the field that the standard names for it.
/// A field whose name begins with Package counts only in a package, which PackageName begins.
pub fn each_column_has_its_field()
    ensures once { (bytes : List ℕ) (d : DocumentText) → Spells bytes (Ok d)
        → HaveEachOnce d.entries }
    ensures columns { (bytes : List ℕ) (d : DocumentText) → Spells bytes (Ok d) → HasColumns d }
    ensures placed { (kind : SectionKind) (tag : Tag)
        → starts_with nat_eq (tag_name tag) (codes "Package") ≡ true
        → same_tag tag tags.PackageName ≡ false → is_placed kind tag ≡ is_package kind }
{}
