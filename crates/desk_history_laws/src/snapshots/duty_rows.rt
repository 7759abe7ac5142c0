//! Laws of the duties in the tables of a recorded history, each the contract of a function with an
//! empty body: their changes are their moves, and they are what the frozen terms owe. These are two
//! of the ten conditions of an audit (`desk_snapshot`).

ghost use Rattle.std.specs.Prelude.{List};
ghost use Rattle.desk_model.specs.Answers.{IsHistory};
ghost use Rattle.desk_model.specs.Readings.{Readings};
ghost use Rattle.desk_model.specs.Tables.{tables};
ghost use Rattle.desk_model.specs.declared.command.Command.{Command};
ghost use Rattle.desk_snapshot.specs.Conditions.{AreChanges, AreDuties};
ghost use Rattle.desk_snapshot.specs.Tables.{snapshot_of};
ghost use Rattle.desk_history_laws.specs.Premises.{ReadsRules};

/// The changes of each duty of a recorded history are its moves: steps from 1, a raising first,
/// each next one allowed in the state in which the one before it left the duty, the last one
/// leading to its present state, all on days that exist, with allowed texts, and within the limit
/// of steps. There are no changes of other duties, and only a waived step has a last day, which is
/// not before the day of that step. A CloseDay that ended waivers on their last day, or a move that
/// is recorded although the duty is in another state, would not meet this.
pub fn changes_are_the_moves_of_duties()
    ensures { (w : Readings) (h : List Command) → IsHistory w h
        → AreChanges (snapshot_of (tables w h)) }
{}

/// The duties of a recorded history are exactly those that its frozen terms owe, each once, and
/// each frozen term has its rule: if the term of a rule is the one that its spelling spells, the
/// rule of the release's revision and form that is spelled as the frozen term's rule is the one by
/// which the release was frozen. Codes are joined by one blank, and are words. Duties by the
/// catalogue that was loaded last, or by the revision in force at the opening, would not meet this.
pub fn duties_are_what_frozen_terms_owe()
    ensures { (w : Readings) (h : List Command) → ReadsRules w → IsHistory w h
        → AreDuties (snapshot_of (tables w h)) }
{
    desk_history::listed_tables_are_sorted();
    crate::frozen_rows_exactly();
}
