//! Laws of the answers to commands.

ghost use Rattle.std.specs.Prelude.{◌≡◌, ◌⊎◌, ◌<◌, ◌+◌, [], ℕ, List, Ok, Some, None, true, false, length, filter, find, is_some, unwrap_or};
ghost use Rattle.std.specs.List.{list_any};
ghost use Rattle.std.specs.Str.{bytes_eq};
ghost use Rattle.desk_base.specs.Day.{is_day};
ghost use Rattle.desk_base.specs.declared.profile.Profile.{Profile};
ghost use Rattle.desk_model.specs.Answers.{answer, freezing, has_document, is_recorded, refused_alone, release_state, release_state_of};
ghost use Rattle.desk_model.specs.Conclusions.{adoptions, is_plain, is_reference, licence_for};
ghost use Rattle.desk_model.specs.History.{attached, attached_to, documents, form_of, forms_in, in_force, opened, revisions};
ghost use Rattle.desk_model.specs.Keys.{has_namespace, is_adoption_in, is_attachment};
ghost use Rattle.desk_model.specs.Moves.{duty_at, moves, place};
ghost use Rattle.desk_model.specs.Raised.{owed_at, raised};
ghost use Rattle.desk_model.specs.Readings.{Readings};
ghost use Rattle.desk_model.specs.Texts.{is_note, is_release_name};
ghost use Rattle.desk_model.specs.declared.command.Answer.{Answer};
ghost use Rattle.desk_model.specs.declared.command.Answer.TheVariants as answered;
ghost use Rattle.desk_model.specs.declared.command.Command.{Command};
ghost use Rattle.desk_model.specs.declared.command.Command.TheVariants.{Adopt, Attach, Freeze, Import, LoadCatalogue, Meet, OpenRelease};
ghost use Rattle.desk_model.specs.declared.reading.Catalogue.{Catalogue};
ghost use Rattle.desk_model.specs.declared.reading.Document.{Document};
ghost use Rattle.desk_model.specs.declared.refusal.Limit.TheVariants as limit;
ghost use Rattle.desk_model.specs.declared.refusal.Refusal.{Refusal};
ghost use Rattle.desk_model.specs.declared.row.Owed.{Owed};
ghost use Rattle.desk_model.specs.declared.state.DutyState.TheVariants as duty;
ghost use Rattle.desk_model.specs.declared.state.ReleaseState.TheVariants as release;
ghost use Rattle.desk_history.specs.Alone.{is_refused_for_itself};
ghost use Rattle.desk_history.specs.Full.{IsFullAt};

/// A command is recorded unless it is refused or answered Again.
pub fn recorded_exactly()
    ensures again { (n : ℕ) → is_recorded (answered.Again n) ≡ false }
    ensures refused { (refusal : Refusal) → is_recorded (answered.Refused refusal) ≡ false }
    ensures only { (a : Answer) → is_recorded a ≡ false
        → ((n : ℕ) × (a ≡ answered.Again n)) ⊎ ((refusal : Refusal) × (a ≡ answered.Refused refusal)) }
{}

/// The command itself decides its refusal if and only if, after every history, it is refused with
/// one of the numbers 1, 2, 6, 8, 9, 25, 26 and 30: those of faults of its own texts and days.
pub fn refused_alone_exactly()
    ensures { (w : Readings) (h : List Command) (c : Command)
        → is_refused_for_itself (answer w h c) ≡ refused_alone w c }
{}

/// A desk keeps 4,096 revisions, 4,096 documents, 4,096 releases and 100,000 duties; a release has
/// 64 documents, a document 10,000 adopted references, and a duty 999 changes before it is
/// withdrawn. A command that is refused for no other reason is done up to this number, and the
/// first one past it is refused as Full.
pub fn first_past_each_limit_is_full()
    ensures revisions { (w : Readings) (h : List Command) (text : List ℕ) (c : Catalogue)
        → w.catalogue text ≡ Ok c → let count = length (revisions h) in
        IsFullAt 4096 limit.Revisions count (answered.Revision (count + 1))
        (answer w h (LoadCatalogue text)) }
    ensures documents { (w : Readings) (h : List Command) (bytes : List ℕ) (profile : Profile)
        (d : Document) → w.document bytes ≡ Ok d
        → find (has_namespace d.namespace) (documents w h) ≡ None
        → let count = length (documents w h) in
        IsFullAt 4096 limit.Documents count (answered.Imported (count + 1))
        (answer w h (Import bytes profile)) }
    ensures releases { (w : Readings) (h : List Command) (r form : List ℕ)
        → is_release_name r ≡ true → list_any (bytes_eq form) (forms_in (in_force w h)) ≡ true
        → is_some (form_of h r) ≡ false
        → IsFullAt 4096 limit.Releases (length (opened h)) answered.Done
        (answer w h (OpenRelease r form)) }
    ensures attached { (w : Readings) (h : List Command) (r : List ℕ) (d : ℕ)
        → release_state h r ≡ Some release.IsOpen → has_document w h d ≡ true
        → list_any (is_attachment r d) (attached h) ≡ false
        → IsFullAt 64 limit.Attached (length (attached_to (attached h) r)) answered.Done
        (answer w h (Attach r d)) }
    ensures adoptions { (w : Readings) (h : List Command) (d : ℕ) (reference licence : List ℕ)
        → is_reference w reference ≡ true → is_plain w licence ≡ true
        → has_document w h d ≡ true
        → is_some (licence_for (adoptions w h) d (unwrap_or (w.term reference) [])) ≡ false
        → IsFullAt 10000 limit.Adoptions (length (filter (is_adoption_in d) (adoptions w h)))
        answered.Done (answer w h (Adopt d reference licence)) }
    ensures duties { (w : Readings) (h : List Command) (r day : List ℕ) → is_day day ≡ true
        → release_state h r ≡ Some release.IsOpen → 0 < length (attached_to (attached h) r)
        → let found = freezing w h r in found.fault ≡ None
        → IsFullAt 100001 limit.Duties (length (raised w h) + length (owed_at w h r))
        (answered.Frozen (length (raised w h) + 1) (length (owed_at w h r)))
        (answer w h (Freeze r day)) }
    ensures changes { (w : Readings) (h : List Command) (q : ℕ) (day text : List ℕ) (d : ℕ × Owed)
        → is_day day ≡ true → is_note text ≡ true → duty_at w h q ≡ Some d
        → release_state_of h (Some d) ≡ release.Frozen → place w h d.0 ≡ duty.IsOpen
        → IsFullAt 999 limit.Changes (length (moves w h q)) answered.Done
        (answer w h (Meet q day text)) }
{}
