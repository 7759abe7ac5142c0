//! What satisfies an expression, stated for the list of its tree's parts.

ghost use Rattle.std.specs.Prelude.{◌↔◌, List, All, Contains};
ghost use Rattle.std.specs.List.{Any};
ghost use Rattle.desk_expr.specs.declared.term.Term.{Term};
ghost use Rattle.desk_expr.specs.Meaning.{Holds};
ghost use Rattle.desk_expr.specs.Tree.{Tree, all, any, parts_of};

/// An Any is satisfied exactly if at least one part is, and an All exactly if each part is.
pub fn parts_decide()
    ensures some { (chosen : List Term) (parts : List Tree)
        → Holds (Contains chosen) (any (parts_of parts)) ↔ Any (Holds (Contains chosen)) parts }
    ensures each { (chosen : List Term) (parts : List Tree)
        → Holds (Contains chosen) (all (parts_of parts)) ↔ All (Holds (Contains chosen)) parts }
{}
