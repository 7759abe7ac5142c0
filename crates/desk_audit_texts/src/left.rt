//! The rows of a table that remain after those that texts give.

ghost use Rattle.std.specs.Prelude.{◌≡◌, ◌++◌, ℤ, List, [], Some, map};
ghost use Rattle.std.specs.Bool.{Decides};
ghost use Rattle.std.specs.Option.{option_copied};
ghost use Rattle.desk_audit_texts.specs.Left.{IsLeft};

/// A row that is stored for an item of what was read.
pub(crate) trait Stored: Sized {
    /// What was read.
    type Read;

    /// The row of an item, for the catalogue or the document with a number.
    ghost stored: { ℤ → Self.Read → Self };

    /// Whether this is the row of an item.
    fn is_of(&self, number: i64, item: &Self::Read) -> bool
        ensures { Decides result (self.now ≡ stored number item.now) };
}

/// The rows after those of some items, if the rows begin with exactly these.
fn behind<'a, R: Stored>(rows: &'a [R], number: i64, items: &[R::Read]) -> Option<&'a [R]>
    ensures { IsLeft rows.now (map (R.stored number) items.now) (option_copied result) }
{
    let mut rest = rows;
    for item in items {
        let (row, behind) = rest.split_first()?;
        if !row.is_of(number, item) {
            return None;
        }
        rest = behind;
    }
    Some(rest)
}

/// The rows that are left of a table after those of some more items, if some were left.
pub(crate) fn left_behind<'a, R: Stored>(
    left: Option<&'a [R]>,
    number: i64,
    items: &[R::Read],
) -> Option<&'a [R]>
    ensures { (all : List R) (front : List R) → IsLeft all front (option_copied left.entry)
        → IsLeft all (front ++ map (R.stored number) items.now) (option_copied result) }
{
    behind(left?, number, items)
}

/// Whether the rows of a table are all used up.
pub(crate) fn are_used_up<R>(left: Option<&[R]>) -> bool
    ensures { Decides result (option_copied left.entry ≡ Some []) }
{
    left.is_some_and(|rows| rows.is_empty())
}
