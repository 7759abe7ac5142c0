//! The tables of every recorded history are sound: they meet all ten conditions of an audit
//! (`desk_snapshot`). So an audit finds no fault in what a desk wrote, whatever was recorded, and
//! anything that it does find was written by something else.
//!
//! The ten conditions are laws of `snapshots`. Two of them require something of the reading of
//! texts; the law here says that each right reading has it.

ghost use Rattle.std.specs.Prelude.{List};
ghost use Rattle.desk_model.specs.Answers.{IsHistory};
ghost use Rattle.desk_model.specs.Readings.{Readings};
ghost use Rattle.desk_model.specs.Tables.{tables};
ghost use Rattle.desk_model.specs.declared.command.Command.{Command};
ghost use Rattle.desk_texts.specs.Right.{AreRight};
ghost use Rattle.desk_snapshot.specs.Reports.{Meets};
ghost use Rattle.desk_snapshot.specs.Tables.{snapshot_of};
ghost use Rattle.desk_snapshot.specs.declared.fault.AuditFault.{AuditFault};
ghost use Rattle.desk_history_laws.specs.Premises.{ReadsRules};
ghost use Rattle.desk_history_laws.specs.ChoicePremises.{ReadsChoices};

/// What a right reading says about catalogues, documents and expressions is what an audit requires:
/// rules are listed in order and their terms are those that their spellings spell, a printed term
/// spells itself, and a minimal list of terms is minimal as a set.
pub fn right_readings_tell_what_audits_ask()
    ensures rules { (w : Readings) → AreRight w → ReadsRules w }
    ensures choices { (w : Readings) → AreRight w → ReadsChoices w }
{
    crate::readings::right_readings_list_in_order();
    crate::readings::right_readings_list_ids();
    crate::readings::right_readings_list_once();
    crate::readings::expressions_have_no_fault();
    crate::readings::choices_are_minimal_sets();
    crate::readings::readings_speak_of_terms();
}

/// The tables of every recorded history meet all ten conditions of an audit, by each right reading
/// of texts. A condition that required more than what the desk keeps, such as choices that are
/// minimal for the conclusion of their day or rules that are found in the catalogue in force, would
/// not be met.
pub fn histories_are_sound()
    ensures { (w : Readings) (h : List Command) → AreRight w → IsHistory w h
        → (f : AuditFault) → Meets w (snapshot_of (tables w h)) f }
{
    right_readings_tell_what_audits_ask();
    crate::snapshots::versions_are_told();
    crate::snapshots::revisions_are_numbered_catalogues();
    crate::snapshots::rules_are_those_of_their_catalogues();
    crate::snapshots::documents_are_numbered_and_read();
    crate::snapshots::packages_are_those_of_their_documents();
    crate::snapshots::duties_are_numbered_and_few();
    crate::snapshots::duties_stand_as_their_releases();
    crate::snapshots::duty_rows::changes_are_the_moves_of_duties();
    crate::snapshots::duty_rows::duties_are_what_frozen_terms_owe();
    crate::snapshots::choice_rows::choices_are_minimal_and_kept();
}
