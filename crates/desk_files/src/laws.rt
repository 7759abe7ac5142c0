//! Laws of the differences. Each is the contract of a function with an empty body.

ghost use Rattle.sqlite_schema.specs.declared.schema.Schema.{Schema};
ghost use Rattle.desk_sql_layout.specs.Desk.{HasDesk};
ghost use Rattle.desk_sql_adopt.specs.Older.{HasOlder};
ghost use Rattle.desk_sql_adopt.specs.declared.older.OlderVersion.{OlderVersion};
ghost use Rattle.desk_files.specs.Differences.{IsFirst, IsNamed};
ghost use Rattle.desk_files.specs.declared.differences.Difference.{Difference};
ghost use Rattle.std.specs.Prelude.{true, false};

/// A difference that names a table or an index is a reason: a schema with the tables of a desk, or
/// of an older version, has none.
pub fn a_named_difference_is_a_reason()
    ensures desk { (schema : Schema) (difference : Difference) → IsFirst schema false difference
        → IsNamed difference → HasDesk schema → ⊥ }
    ensures older { (version : OlderVersion) (schema : Schema) (difference : Difference)
        → IsFirst schema true difference → IsNamed difference → HasOlder version schema → ⊥ }
{}
