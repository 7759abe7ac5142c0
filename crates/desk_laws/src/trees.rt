//! The laws that there is a right reader of trees, and that a tree has one gathering.
//!
//! What a tree gives is a function of its files and of a `Reader`: the pieces of patterns, which
//! texts are licence expressions, which paths a pattern matches, and what each file states itself.
//! Contracts are about each right reader (`IsRightReader`), so they would say nothing if there were
//! none. `right_reader_exists` gives one, however much memory there is;
//! `desk_tree_gather::one_reader` says that there is no other.

ghost use Rattle.std.specs.Prelude.{◌≡◌, List};
ghost use Rattle.desk_tree_gather.specs.Gathering.{gathered};
ghost use Rattle.desk_tree_infos.specs.Readers.{Reader, IsRightReader};
ghost use Rattle.desk_tree_gather.specs.Survey.{flaws_of, infos_sifted, kept};
ghost use Rattle.desk_tree_gather.specs.Trees.{Read};
ghost use Rattle.desk_tree_gather.specs.declared.files.SourceFile.{SourceFile};
ghost use Rattle.desk_tree_gather.specs.declared.flaw.Flaw.{Flaw};
ghost use Rattle.desk_tree_infos.specs.declared.infos.FileInfo.{FileInfo};

/// There is a right reader.
pub fn right_reader_exists()
    ensures { (r : Reader) × IsRightReader r }
{}

/// A tree has exactly one gathering and one survey: all right readers gather the same from it, its
/// files' information or its fault, and find the same flaws and the same information on the rest.
pub fn each_tree_is_gathered_once()
    ensures gathering { (files : List SourceFile) → (answer : Read (List FileInfo)) × ((r : Reader)
        → IsRightReader r → gathered r files ≡ answer) }
    ensures survey { (files : List SourceFile)
        → (flaws : List Flaw) × (infos : List FileInfo) × ((r : Reader)
        → IsRightReader r → (flaws_of r files ≡ flaws) × (infos_sifted r (kept files) ≡ infos)) }
{
    desk_tree_gather::one_reader();
    right_reader_exists();
}
