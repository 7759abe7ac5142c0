//! The values of an entry.

ghost use Rattle.std.specs.Prelude.{◌≡◌, ℕ, List, false, option_map};
ghost use Rattle.toml.specs.Data.{get_member};
ghost use Rattle.toml.specs.View.{view, table_view};
ghost use Rattle.std.specs.Str.{bytes_eq};
ghost use Rattle.desk_fill.specs.Filling.{is_nothing};
ghost use Rattle.desk_fill.specs.Values.{is_name, says_something};

use desk_base::is_idstring_of_bytes;
use desk_tokens::is_reference;
use toml::{Table, Value};

/// Takes the value at a key out of a table.
pub(crate) fn take_member(table: &mut Table, key: &str) -> Option<Value>
    ensures value { option_map view result ≡ get_member key.now (table_view table.old) }
    ensures others { (other : List ℕ) → bytes_eq key.now other ≡ false
        → get_member other (table_view table.new) ≡ get_member other (table_view table.old) }
{
    table.remove(key)
}

/// Whether a value says that there is nothing, or nothing that is known.
pub(crate) fn is_nothing(value: &str) -> bool
    ensures { result ≡ is_nothing value.now }
{
    value == "NONE" || value == "NOASSERTION"
}

/// Whether a text says something.
pub fn says_something(text: &str) -> bool
    ensures { result ≡ says_something text.now }
{
    1 <= text.len() && !is_nothing(text)
}

/// Whether a text is the id of a licence or an exception, or a reference.
pub fn is_name(text: &str) -> bool
    ensures { result ≡ is_name text.now }
{
    is_idstring_of_bytes(text.as_bytes()) || is_reference(text.as_bytes())
}
