//! Laws of the definitions.

ghost use Rattle.std.specs.Prelude.{◌≡◌, List, Ok};
ghost use Rattle.desk_tree_gather.specs.declared.files.SourceFile.{SourceFile};
ghost use Rattle.desk_tree_infos.specs.Readers.{Reader, IsRightReader};
ghost use Rattle.desk_tree_gather.specs.Trees.{tree_of};
ghost use Rattle.desk_tree_gather.specs.Gathering.{gathered};
ghost use Rattle.desk_tree_gather.specs.Survey.{kept, flaws_of, infos_sifted, Agrees};

/// There is only one right reader.
pub fn one_reader()
    ensures { (r s : Reader) → IsRightReader r → IsRightReader s → r ≡ s }
{}

/// What is gathered is what a survey gives if nothing is wrong; otherwise the fault is the first
/// flaw.
pub fn gathered_is_surveyed()
    ensures answer { (r : Reader) (files : List SourceFile)
        → Agrees (gathered r files) (flaws_of r files) (infos_sifted r (kept files)) }
    ensures tree { (files tree : List SourceFile) → tree_of files ≡ Ok tree → kept files ≡ tree }
{}
