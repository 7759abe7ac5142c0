//! The law that a desk can adopt sound rows.

ghost use Rattle.desk_model.specs.Readings.{Readings};
ghost use Rattle.desk_model.specs.Tables.{Tables};
ghost use Rattle.desk_snapshot.specs.Reports.{IsReport};
ghost use Rattle.desk_snapshot.specs.declared.fault.AuditReport.TheVariants.{Sound};
ghost use Rattle.desk_snapshot.specs.declared.snapshot.Snapshot.{Snapshot};
ghost use Rattle.desk_beside.specs.Beside.{HasNumbers};
ghost use Rattle.desk_beside.specs.Shown.{AreShown, HaveOwnSteps};

/// Sound rows without a number below 0 are those of some tables, whether or not any commands make
/// these, if the changes and the last days of waivers are in the order of their keys and no key
/// appears twice. Rows with a document -1, or with two last days of one waiver, are not.
pub fn sound_rows_are_tables()
    ensures { (w : Readings) (s : Snapshot) → IsReport w s Sound → HasNumbers s → HaveOwnSteps s
        → (t : Tables) × AreShown w s t }
{}
