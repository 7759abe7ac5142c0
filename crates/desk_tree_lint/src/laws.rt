//! Laws of the definitions.

ghost use Rattle.std.specs.Prelude.{◌≡◌, List};
ghost use Rattle.desk_tree_infos.specs.Readers.{Reader};
ghost use Rattle.desk_tree_gather.specs.declared.files.SourceFile.{SourceFile};
ghost use Rattle.desk_tree_lint.specs.declared.lists.Lint.{Lint};
ghost use Rattle.desk_tree_lint.specs.Lists.{IsLint};

/// A tree has only one answer.
pub fn one_lint()
    ensures { (r : Reader) (files : List SourceFile) (a b : Lint) → IsLint r files a
        → IsLint r files b
        → a ≡ b }
{}
