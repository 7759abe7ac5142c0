//! Laws of entries.

ghost use Rattle.std.specs.Prelude.{◌≡◌, ◌≤◌, ℕ, List, [], Ok, length, true};
ghost use Rattle.std.specs.Str.{is_utf8};
ghost use Rattle.desk_fill.specs.Reading.{fill_of, most_bytes, most_entries};
ghost use Rattle.desk_tree_gather.specs.declared.files.SourceFile.{SourceFile};
ghost use Rattle.desk_entries.specs.Sifting.{AreEntries, sifted};
ghost use Rattle.desk_entries.specs.Written.{IsTextFile};

/// The texts of a folder are entries, and the file that is written for them is read back as exactly
/// these texts.
pub fn written_texts_are_read()
    ensures entries { (files : List SourceFile) → AreEntries [] (sifted files).texts }
    ensures back { (files : List SourceFile) (file : List ℕ) → IsTextFile (sifted files).texts file
        → length (sifted files).texts ≤ most_entries → length file ≤ most_bytes
        → is_utf8 file ≡ true
        → fill_of file ≡ Ok (record { texts = (sifted files).texts; credits = [] }) }
{}
