//! The law of the choices in the tables of a recorded history, the contract of a function with an
//! empty body: what the office concluded and adopted is valid, what is held is minimal for the
//! conclusion in force, and a frozen release's choices are its frozen terms. This is one of the ten
//! conditions of an audit (`desk_snapshot`).

ghost use Rattle.std.specs.Prelude.{List};
ghost use Rattle.desk_model.specs.Answers.{IsHistory};
ghost use Rattle.desk_model.specs.Readings.{Readings};
ghost use Rattle.desk_model.specs.Tables.{tables};
ghost use Rattle.desk_model.specs.declared.command.Command.{Command};
ghost use Rattle.desk_snapshot.specs.Conditions.{AreChoices};
ghost use Rattle.desk_snapshot.specs.Tables.{snapshot_of};
ghost use Rattle.desk_history_laws.specs.ChoicePremises.{ReadsChoices};

/// In a recorded history each conclusion of the office is an expression, each adoption maps a plain
/// reference to a plain licence, and the releases have the places from 1 to their number. Each term
/// that is held is of a release that isn't withdrawn, for a package that an attached document
/// ships, and what is held for the package is a minimal set for its conclusion: a Conclude of a
/// package for which a choice is held is refused. A frozen release's choices are its frozen terms.
/// Choices that were checked only against the package's own field, or against the conclusion of the
/// time when they were made, would not meet this.
pub fn choices_are_minimal_and_kept()
    ensures { (w : Readings) (h : List Command) → ReadsChoices w → IsHistory w h
        → AreChoices w (snapshot_of (tables w h)) }
{
    desk_history::last_choice_stands();
    desk_history::held_choices_are_minimal();
    desk_history::frozen_terms_were_held();
    crate::sets_keep_their_members();
    crate::choices_are_the_last_decisions();
    crate::frozen_choices_are_the_frozen_terms();
}
