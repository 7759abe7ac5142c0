//! Laws about a desk's tables as a file keeps them, each the contract of a function with an empty
//! body.
//!
//! A database holds tables in the order that look-ups by key and number rely on (`AreOrderly` of
//! `desk_sql_layout`), and a change is written only if the tables give its rows back as they were
//! (`is_writable`). The laws here say that each history leaves tables in this form and that each
//! command makes such a change, if the reading of texts lists in order and names duties by ids, as
//! each right reading does (`right_readings_give_orderly_tables`). What a stop leaves of a desk,
//! opened again, shows its tables (`what_a_stop_leaves_opens_again`).
//!
//! Other contracts say that no write and no look-up fails without a cause, if the tables can hold
//! the rows (`CanStand` of `desk_sql_write`) and the rows are as a desk writes them (`AreWritten`
//! of `desk_sql_layout`). `tables_can_stand` says that this is so for the rows of each recorded
//! history whose texts are short.

ghost use Rattle.std.specs.Prelude.{◌≡◌, true, List};
ghost use Rattle.desk_model.specs.Readings.{Readings};
ghost use Rattle.desk_model.specs.Tables.{tables, Tables};
ghost use Rattle.desk_model.specs.declared.command.Command.{Command};
ghost use Rattle.desk_history.specs.FromTables.{change_for};
ghost use Rattle.desk_history.specs.Laws.{ListsInOrder};
ghost use Rattle.desk_history_laws.specs.Ids.{ListsIds};
ghost use Rattle.desk_model.specs.Answers.{IsHistory};
ghost use Rattle.desk_sql_layout.specs.Held.{AreOrderly, rows_of, seen_of, Stands};
ghost use Rattle.desk_sql_layout.specs.Writable.{is_writable};
ghost use Rattle.desk_texts.specs.Right.{AreRight};
ghost use Rattle.desk_sql_layout.specs.Causes.{AreWritten};
ghost use Rattle.desk_sql_write.specs.Taking.{CanStand};
ghost use Rattle.desk_laws.specs.Opened.{IsOpenedOn};
ghost use Rattle.desk_laws.specs.Storable.{HaveShortTexts};
ghost use Rattle.sqlite.specs.Held.{state};
ghost use Rattle.sqlite_trees.specs.Tree.{Trees};

use sqlite::{Alter, Connection};

/// The tables of each list of commands are in the form that a file needs: they are sorted by their
/// keys; revisions, documents and duties are numbered 1, 2 and so on; packages and changes are of
/// documents and duties that exist; and codes are words.
pub fn tables_are_orderly()
    ensures { (w : Readings) (h : List Command) → ListsInOrder w → ListsIds w
        → AreOrderly (tables w h) }
{
    desk_history::tables_are_sorted();
    desk_history::listed_tables_are_sorted();
    desk_history_laws::catalogues_are_the_loads();
    desk_history_laws::documents_are_the_imports();
}

/// The change of each command, over any tables, is one that a file can hold.
pub fn changes_can_be_written()
    ensures { (w : Readings) (t : Tables) (c : Command) → ListsInOrder w → ListsIds w
        → is_writable (change_for w t c) ≡ true }
{}

/// By each right reading of texts, the tables of each list of commands are in the form that a file
/// needs, and the change of each command is one that a file can hold.
pub fn right_readings_give_orderly_tables()
    ensures tables { (w : Readings) (h : List Command) → AreRight w → AreOrderly (tables w h) }
    ensures changes { (w : Readings) (t : Tables) (c : Command) → AreRight w
        → is_writable (change_for w t c) ≡ true }
{
    desk_history_laws::right_readings_list_in_order();
    desk_history_laws::right_readings_list_ids();
    tables_are_orderly();
    changes_can_be_written();
}

/// What a stop of the program left, opened again, shows the tables that it holds, all committed. So
/// what a stop leaves of a desk is adopted as the desk with the rows of its history.
pub fn what_a_stop_leaves_opens_again<S: Alter>(conn: &Connection<S>)
    ensures { (left : Trees) (t : Tables) → IsOpenedOn (state S.Store conn.now) left → Stands left t
        → let seen = seen_of (state S.Store conn.now) in seen.holds t }
{}

/// A file can hold the tables of each recorded history whose texts are short: each key that is
/// declared unique appears once, and each cell is small. They are rows as a desk writes them.
pub fn tables_can_stand()
    ensures stand { (w : Readings) (h : List Command) → AreRight w → IsHistory w h
        → HaveShortTexts (tables w h) → CanStand (rows_of (tables w h)) }
    ensures written { (w : Readings) (h : List Command) → IsHistory w h
        → HaveShortTexts (tables w h) → AreWritten (tables w h) }
{
    desk_history_laws::keys_stand_once();
    desk_history_laws::rows_stay_within_limits();
}
