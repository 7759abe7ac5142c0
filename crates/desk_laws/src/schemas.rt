//! Laws about which files have a desk's tables (`HasDesk` of `desk_sql_layout`), each the contract of
//! a function with an empty body.

ghost use Rattle.std.specs.Prelude.{◌≡◌, ◌==◌, ◌∷◌, ◌++◌, [], List, length, nat_le, not, false, true};
ghost use Rattle.sqlite_rules.specs.Lists.{Has};
ghost use Rattle.sqlite_schema.specs.Names.{same_name};
ghost use Rattle.sqlite_schema.specs.declared.schema.Index.{Index};
ghost use Rattle.sqlite_schema.specs.declared.schema.Schema.{Schema};
ghost use Rattle.sqlite_schema.specs.declared.schema.Table.{Table};
ghost use Rattle.sqlite_schema.specs.declared.schema.View.{View};
ghost use Rattle.desk_sql_layout.specs.Desk.{HasDesk};
ghost use Rattle.desk_sql_layout.specs.Layout.{desk_schema};
ghost use Rattle.desk_laws.specs.Schemas.{with_states_once, without};

/// A new file's tables are a desk's. Two adjacent tables with different names and trees may be
/// exchanged, so the order of a desk's tables doesn't matter.
pub fn tables_come_in_any_order()
    ensures declared { HasDesk desk_schema }
    ensures exchanged { (schema : Schema) (before behind : List Table) (one other : Table)
        → schema.tables ≡ before ++ one ∷ other ∷ behind
        → same_name one.name other.name ≡ false → (one.tree == other.tree) ≡ false
        → HasDesk schema
        → HasDesk (record schema { tables = before ++ other ∷ one ∷ behind }) }
{}

/// A desk's tables stay a desk's beside another table, if that refers to none; beside an index of
/// theirs that isn't UNIQUE and has at most 8 columns; and beside any views.
pub fn others_may_stand_beside()
    ensures table { (schema : Schema) (more : Table) → HasDesk schema → more.references ≡ []
        → HasDesk (record schema { tables = schema.tables ++ (more ∷ []) }) }
    ensures index { (schema : Schema) (more : Index) → HasDesk schema → more.is_unique ≡ false
        → nat_le (length more.columns) 8 ≡ true
        → HasDesk (record schema { indexes = schema.indexes ++ (more ∷ []) }) }
    ensures views { (schema : Schema) (views : List View) → HasDesk schema
        → HasDesk (record schema { views = views }) }
{}

/// A file that lacks one of the tables doesn't have a desk's tables, and neither does one with an
/// index that refuses rows that their keys allow.
pub fn none_may_be_missing_or_bound()
    ensures missing { (table : Table) → Has desk_schema.tables table → ¬ HasDesk (without table) }
    ensures bound { ¬ HasDesk with_states_once }
{}
