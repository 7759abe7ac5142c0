//! How the list relates to a freeze. Each law is the contract of a function with an empty body.

ghost use Rattle.std.specs.Prelude.{◌≡◌, ◌≤◌, ◌<◌, ◌+◌, ◌∷◌, [], ℕ, true, List, Some, None, filter, length};
ghost use Rattle.desk_base.specs.Day.{is_day};
ghost use Rattle.desk_base.specs.Limits as most;
ghost use Rattle.desk_model.specs.Answers.{answer};
ghost use Rattle.desk_model.specs.History.{attached_to};
ghost use Rattle.desk_model.specs.Lists.{IsIn};
ghost use Rattle.desk_model.specs.Readings.{Readings};
ghost use Rattle.desk_model.specs.Tables.{tables, Tables};
ghost use Rattle.desk_model.specs.declared.command.Answer.TheVariants.{Frozen, Refused};
ghost use Rattle.desk_model.specs.declared.command.Command.{Command};
ghost use Rattle.desk_model.specs.declared.command.Command.TheVariants.{Freeze};
ghost use Rattle.desk_model.specs.declared.refusal.Limit.TheVariants.{Duties};
ghost use Rattle.desk_model.specs.declared.refusal.Refusal.{Refusal};
ghost use Rattle.desk_model.specs.declared.refusal.Refusal.TheVariants.{EmptyRelease, Full, ReleaseState, UnknownRelease};
ghost use Rattle.desk_model.specs.declared.row.PackageRow.{PackageRow};
ghost use Rattle.desk_model.specs.declared.row.ReleaseRow.{ReleaseRow};
ghost use Rattle.desk_model.specs.declared.state.ReleaseState.TheVariants.{IsOpen};
ghost use Rattle.desk_history.specs.FromTables.{answer_from, owed_found, release_found, shipped_found};
ghost use Rattle.desk_wanting.specs.Against.{IsPrepared, StandsAgainst};
ghost use Rattle.desk_model.specs.Obstacles.{names_reference};
ghost use Rattle.desk_wanting.specs.Obstacles.{wanting_found};

/// For any tables, a freeze on a day of the calendar is refused with the first refusal of the list
/// (`refused`). If there is none, it is accepted if its duties fit (`accepted`), and otherwise
/// refused as full (`full`). So the list is empty if a freeze is accepted (`only`).
pub fn freeze_meets_the_first_refusal()
    ensures refused { (w : Readings) (t : Tables) (r day : List ℕ) (first : Refusal)
        (others : List Refusal)
        → is_day day ≡ true → wanting_found w t r ≡ first ∷ others
        → answer_from w t (Freeze r day) ≡ Refused first }
    ensures accepted { (w : Readings) (t : Tables) (r day : List ℕ)
        → is_day day ≡ true → wanting_found w t r ≡ []
        → length t.duty + length (owed_found w t r) ≤ most.duties
        → answer_from w t (Freeze r day) ≡ Frozen (length t.duty + 1) (length (owed_found w t r)) }
    ensures full { (w : Readings) (t : Tables) (r day : List ℕ)
        → is_day day ≡ true → wanting_found w t r ≡ []
        → most.duties < length t.duty + length (owed_found w t r)
        → answer_from w t (Freeze r day) ≡ Refused (Full Duties) }
    ensures only { (w : Readings) (t : Tables) (r day : List ℕ) (first count : ℕ)
        → answer_from w t (Freeze r day) ≡ Frozen first count → wanting_found w t r ≡ [] }
{}

/// The same after any commands: a freeze is answered by the list for their tables.
pub fn recorded_freeze_meets_the_first_refusal()
    ensures refused { (w : Readings) (h : List Command) (r day : List ℕ) (first : Refusal)
        (others : List Refusal)
        → is_day day ≡ true → wanting_found w (tables w h) r ≡ first ∷ others
        → answer w h (Freeze r day) ≡ Refused first }
    ensures accepted { (w : Readings) (h : List Command) (r day : List ℕ)
        → is_day day ≡ true → let t = tables w h in wanting_found w t r ≡ []
        → length t.duty + length (owed_found w t r) ≤ most.duties
        → answer w h (Freeze r day) ≡ Frozen (length t.duty + 1) (length (owed_found w t r)) }
    ensures full { (w : Readings) (h : List Command) (r day : List ℕ)
        → is_day day ≡ true → let t = tables w h in wanting_found w t r ≡ []
        → most.duties < length t.duty + length (owed_found w t r)
        → answer w h (Freeze r day) ≡ Refused (Full Duties) }
    ensures only { (w : Readings) (h : List Command) (r day : List ℕ) (first count : ℕ)
        → answer w h (Freeze r day) ≡ Frozen first count → wanting_found w (tables w h) r ≡ [] }
{}

/// What is in the list, for any tables. A release that doesn't exist (`unknown`), isn't open
/// (`shut`) or has no document (`empty`) has only that refusal. For any other, each refusal for a
/// package that it ships is in the list (`held`), and nothing else is (`only`); a reference of a
/// document is there at most once (`once`).
pub fn list_holds_what_stands_against_a_freeze()
    ensures unknown { (w : Readings) (t : Tables) (r : List ℕ)
        → release_found t r ≡ None → wanting_found w t r ≡ UnknownRelease ∷ [] }
    ensures shut { (w : Readings) (t : Tables) (r : List ℕ) (row : ReleaseRow)
        → release_found t r ≡ Some row → (row.state ≡ IsOpen → ⊥)
        → wanting_found w t r ≡ ReleaseState row.state ∷ [] }
    ensures empty { (w : Readings) (t : Tables) (r : List ℕ) (row : ReleaseRow)
        → release_found t r ≡ Some row → row.state ≡ IsOpen → attached_to t.attached r ≡ []
        → wanting_found w t r ≡ EmptyRelease ∷ [] }
    ensures held { (w : Readings) (t : Tables) (r : List ℕ) (row : ReleaseRow) (p : PackageRow)
        (x : Refusal)
        → IsPrepared t r row → IsIn p (shipped_found t r) → StandsAgainst w t r row.form p x
        → IsIn x (wanting_found w t r) }
    ensures only { (w : Readings) (t : Tables) (r : List ℕ) (row : ReleaseRow) (x : Refusal)
        → IsPrepared t r row → IsIn x (wanting_found w t r)
        → (p : PackageRow) × IsIn p (shipped_found t r) × StandsAgainst w t r row.form p x }
    ensures once { (w : Readings) (t : Tables) (r : List ℕ) (d : ℕ) (reference : List ℕ)
        → length (filter (names_reference d reference) (wanting_found w t r)) ≤ 1 }
{}
