//! Laws of what is missing for the notices of a release, each the contract of a function with an
//! empty body.

ghost use Rattle.std.specs.Prelude.{◌≡◌, ◌⊎◌, ◌≢◌, ℕ, [], List, Some, true, false};
ghost use Rattle.desk_model.specs.Answers.{release_state};
ghost use Rattle.desk_model.specs.Gaps.{gap, says_nothing};
ghost use Rattle.desk_model.specs.History.{attached, attached_to};
ghost use Rattle.desk_model.specs.Lists.{IsIn};
ghost use Rattle.desk_model.specs.Queries.{queried};
ghost use Rattle.desk_model.specs.Raised.{shipped};
ghost use Rattle.desk_model.specs.Readings.{Readings};
ghost use Rattle.desk_model.specs.declared.command.Answer.TheVariants as answered;
ghost use Rattle.desk_model.specs.declared.command.Command.{Command};
ghost use Rattle.desk_model.specs.declared.command.Query.TheVariants as query;
ghost use Rattle.desk_model.specs.declared.gap.Gap.{Gap};
ghost use Rattle.desk_model.specs.declared.gap.GapKind.TheVariants as missing;
ghost use Rattle.desk_model.specs.declared.row.AttachedRow.{AttachedRow};
ghost use Rattle.desk_model.specs.declared.row.PackageRow.{PackageRow};
ghost use Rattle.desk_model.specs.declared.state.ReleaseState.TheVariants as state;

/// The gaps of a release are listed if it is open, and also if it is frozen. Each package that it
/// ships and whose copyright says nothing is among them, and so is each attached document that has
/// none of these packages. A package that is listed for its copyright is one that the release ships
/// and whose copyright says nothing.
pub fn gaps_are_what_is_missing()
    ensures listed { (w : Readings) (h : List Command) (r : List ℕ)
        → (release_state h r ≡ Some state.IsOpen) ⊎ (release_state h r ≡ Some state.Frozen)
        → (gaps : List Gap) × (queried w h (query.Gaps r) ≡ answered.Gaps gaps) }
    ensures copyrights { (w : Readings) (h : List Command) (r : List ℕ) (gaps : List Gap)
        (p : PackageRow) → queried w h (query.Gaps r) ≡ answered.Gaps gaps
        → IsIn p (shipped w h r) → says_nothing p.copyright ≡ true
        → IsIn (gap missing.Copyright p.document p.id) gaps }
    ensures shipments { (w : Readings) (h : List Command) (r : List ℕ) (gaps : List Gap)
        (row : AttachedRow) → queried w h (query.Gaps r) ≡ answered.Gaps gaps
        → IsIn row (attached_to (attached h) r)
        → ((p : PackageRow) → IsIn p (shipped w h r) → p.document ≢ row.document)
        → IsIn (gap missing.Shipment row.document []) gaps }
    ensures only { (w : Readings) (h : List Command) (r : List ℕ) (gaps : List Gap) (found : Gap)
        → queried w h (query.Gaps r) ≡ answered.Gaps gaps → IsIn found gaps
        → found.kind ≡ missing.Copyright → (p : PackageRow) × IsIn p (shipped w h r)
        × (says_nothing p.copyright ≡ true) × (found ≡ gap missing.Copyright p.document p.id) }
{}
