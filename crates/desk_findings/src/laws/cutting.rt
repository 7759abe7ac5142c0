//! Every definition cuts a document into the same sections (SPDX 2.3, clauses 6 to 10).
//!
//! Four definitions say which section a field is in. The faults of a document use the fields before
//! it, the newest first; its parts use the tags that begin a part; the files of a package and the
//! findings each use a walk from the first field that counts packages. `sections_are_one_cutting`
//! says that each agrees with `parts` of `specs/Cut.antt`.

ghost use Rattle.std.specs.Prelude.{◌≡◌, List, map, reverse};
ghost use Rattle.std.specs.List.{filter, flat_map};
ghost use Rattle.desk_fields.specs.declared.tag.Tag.{Tag};
ghost use Rattle.desk_tagvalue.specs.Entries.{EntryText};
ghost use Rattle.desk_tagvalue.specs.Faults.{section, kind_of};
ghost use Rattle.desk_bom.specs.Contents.{own_files};
ghost use Rattle.desk_findings.specs.Cut.{parts, fields, last_part, packages_of, files_of, is_package_part, is_file_part, owned, listed, findings_fields};

/// All definitions cut a document into the same sections: each field is in one part, in order
/// (`whole`); a fault sees the last part of the fields before it (`faults`); packages and files are
/// the parts of these kinds (`packages`, `files`); a file is in the last package that begins before
/// it (`contents`); findings place each field in its part, by how many packages have begun
/// (`findings`).
pub fn sections_are_one_cutting()
    ensures whole { (es : List EntryText) → flat_map fields (parts es) ≡ es }
    ensures faults { (before : List EntryText)
        → (section before ≡ reverse (last_part (reverse before)).fields)
        × (kind_of before ≡ (last_part (reverse before)).kind) }
    ensures packages { (es : List EntryText) → packages_of es ≡ filter is_package_part (parts es) }
    ensures files { (es : List EntryText) → files_of es ≡ filter is_file_part (parts es) }
    ensures contents { (es : List EntryText) → own_files 0 0 es ≡ owned 0 0 (parts es) }
    ensures findings { (es : List EntryText) → findings_fields es ≡ listed 0 (parts es) }
{}
