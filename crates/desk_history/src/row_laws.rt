//! Laws of the rows of answers: what they say, by the rows of the tables.

ghost use Rattle.std.specs.Prelude.{◌≡◌, ◌≤◌, ◌+◌, ◌∷◌, ◌++◌, [], ℕ, List, Option, Some, None, true, false, find, length, filter, map};
ghost use Rattle.std.specs.List.{list_any};
ghost use Rattle.std.specs.Option.{option_map_or};
ghost use Rattle.desk_base.specs.Day.{is_day};
ghost use Rattle.desk_base.specs.declared.profile.Profile.TheVariants.{Capitals};
ghost use Rattle.desk_model.specs.Answers.{answer, conclusion, release_state};
ghost use Rattle.desk_model.specs.Bills.{first_uses, is_same_text};
ghost use Rattle.desk_model.specs.Conclusions.{concluded_as, text_given};
ghost use Rattle.desk_model.specs.History.{documents, form_of};
ghost use Rattle.desk_model.specs.Keys.{is_change_of, is_document, is_duty_of};
ghost use Rattle.desk_model.specs.Lists.{IsIn, latest};
ghost use Rattle.desk_model.specs.Listings.{term_cost};
ghost use Rattle.desk_model.specs.Moves.{changes, duties, duty_at, end_after, moves};
ghost use Rattle.desk_model.specs.Queries.{duties_of, duty_line, is_open_of, queried};
ghost use Rattle.desk_model.specs.Raised.{rule_adopted};
ghost use Rattle.desk_model.specs.Readings.{Readings};
ghost use Rattle.desk_model.specs.States.{is_waived};
ghost use Rattle.desk_model.specs.Tables.{tables};
ghost use Rattle.desk_model.specs.Texts.{is_before};
ghost use Rattle.desk_model.specs.declared.bill.TextOf.{TextOf};
ghost use Rattle.desk_model.specs.declared.command.Answer.TheVariants as answered;
ghost use Rattle.desk_model.specs.declared.command.Command.{Command};
ghost use Rattle.desk_model.specs.declared.command.Command.TheVariants.{CloseDay};
ghost use Rattle.desk_model.specs.declared.command.DutyLine.{DutyLine};
ghost use Rattle.desk_model.specs.declared.command.Query.TheVariants as query;
ghost use Rattle.desk_model.specs.declared.command.Totals.{Totals};
ghost use Rattle.desk_model.specs.declared.reading.Rule.{Rule};
ghost use Rattle.desk_model.specs.declared.row.AdoptionRow.{AdoptionRow};
ghost use Rattle.desk_model.specs.declared.row.DocumentRow.{DocumentRow};
ghost use Rattle.desk_model.specs.declared.row.DutyRow.{DutyRow};
ghost use Rattle.desk_model.specs.declared.row.Owed.{Owed};
ghost use Rattle.desk_model.specs.declared.row.PackageRow.{PackageRow};
ghost use Rattle.desk_model.specs.declared.state.ReleaseState.TheVariants.{Frozen};
ghost use Rattle.desk_history.specs.Lines.{AreLinesOf, AreTotalsOf, ListsBack, is_ended};

/// The conclusion in force for a package is the text of the last Conclude of it, read with
/// operators in capitals; if there is none, its own field, read by the profile of its document, if
/// it is an expression by that profile; otherwise there is none.
pub fn conclusions_in_force()
    ensures office { (w : Readings) (h : List Command) (p : PackageRow) (text : List ℕ)
        → latest (text_given p.document p.id) h ≡ Some text
        → conclusion w h p ≡ Some (concluded_as Capitals text) }
    ensures field { (w : Readings) (h : List Command) (p : PackageRow) (document : DocumentRow)
        (text : List ℕ) → latest (text_given p.document p.id) h ≡ None
        → find (is_document p.document) (documents w h) ≡ Some document
        → p.concluded ≡ Some text → w.is_expression document.profile text ≡ true
        → conclusion w h p ≡ Some (concluded_as document.profile text) }
    ensures absent { (w : Readings) (h : List Command) (p : PackageRow)
        → latest (text_given p.document p.id) h ≡ None → p.concluded ≡ None
        → conclusion w h p ≡ None }
    ensures unread { (w : Readings) (h : List Command) (p : PackageRow) (document : DocumentRow)
        (text : List ℕ) → latest (text_given p.document p.id) h ≡ None
        → find (is_document p.document) (documents w h) ≡ Some document
        → p.concluded ≡ Some text → w.is_expression document.profile text ≡ false
        → conclusion w h p ≡ None }
{}

/// The lines of a release's duties are its rows of the table of duties, column by column, each with
/// the day of the last of its changes in the table.
pub fn duty_lines_are_the_rows()
    ensures { (w : Readings) (h : List Command) (r form : List ℕ) → form_of h r ≡ Some form
        → (lines : List DutyLine) × (queried w h (query.Duties r) ≡ answered.Duties lines)
        × (let t = tables w h in AreLinesOf t.changes (filter (is_duty_of r) t.duty) lines) }
{}

/// The totals of a release count its duties, and those that are open, met, waived and withdrawn.
pub fn totals_count_the_rows()
    ensures { (w : Readings) (h : List Command) (r form : List ℕ) → form_of h r ≡ Some form
        → (totals : Totals) × (queried w h (query.Totals r) ≡ answered.Totals totals)
        × (let t = tables w h in AreTotalsOf (filter (is_duty_of r) t.duty) totals) }
{}

/// The changes of a duty that was raised are its rows of the table of changes.
pub fn changes_are_the_rows()
    ensures { (w : Readings) (h : List Command) (q : ℕ) (d : ℕ × Owed) → duty_at w h q ≡ Some d
        → let t = tables w h in queried w h (query.Changes q)
        ≡ answered.Changes (filter (is_change_of q) t.changes) }
{}

/// The cost of a term is the number of codes that the rule for its adopted form owes, or 1,000,000
/// if there are more. A term without a rule has no cost.
pub fn costs_count_codes()
    ensures few { (w : Readings) (licences : List AdoptionRow) (rules : List Rule) (form : List ℕ)
        (d : ℕ) (term : List ℕ) (rule : Rule)
        → rule_adopted w licences rules form d term ≡ Some rule → length rule.codes ≤ 1000000
        → term_cost w licences rules form d term ≡ Some (length rule.codes) }
    ensures many { (w : Readings) (licences : List AdoptionRow) (rules : List Rule) (form : List ℕ)
        (d : ℕ) (term : List ℕ) (rule : Rule)
        → rule_adopted w licences rules form d term ≡ Some rule → 1000000 ≤ length rule.codes
        → term_cost w licences rules form d term ≡ Some 1000000 }
    ensures none { (w : Readings) (licences : List AdoptionRow) (rules : List Rule) (form : List ℕ)
        (d : ℕ) (term : List ℕ) → rule_adopted w licences rules form d term ≡ None
        → term_cost w licences rules form d term ≡ None }
{}

/// A CloseDay answers how many changes it adds to the table, each of which is an end of a waiver.
pub fn closed_counts_what_ended()
    ensures { (w : Readings) (h : List Command) (day : List ℕ) (n : ℕ)
        → answer w h (CloseDay day) ≡ answered.Closed n
        → let before = tables w h in let after = tables w (CloseDay day ∷ h) in
        (length after.changes ≡ n + length before.changes)
        × (length (filter is_ended after.changes) ≡ n + length (filter is_ended before.changes)) }
{}

/// The question whether a release is ready lists duties if and only if the release is frozen and the
/// day, if one is given, is a day. Without a day these are the open duties of the release; with one
/// they are, by number, those that are open once the day is closed; each has its line among those of
/// all duties. So if none is listed, the totals count no open duty, and each waiver that ends lasts
/// to the day or beyond it.
pub fn ready_releases_owe_nothing()
    ensures listed { (w : Readings) (h : List Command) (r : List ℕ) (day : Option (List ℕ))
        → option_map_or is_day day true ≡ true → release_state h r ≡ Some Frozen
        → (lines : List DutyLine) × ListsBack w h r day lines }
    ensures only { (w : Readings) (h : List Command) (r : List ℕ) (day : Option (List ℕ))
        (lines : List DutyLine) → ListsBack w h r day lines
        → (option_map_or is_day day true ≡ true) × (release_state h r ≡ Some Frozen) }
    ensures still_open { (w : Readings) (h : List Command) (r : List ℕ) (lines : List DutyLine)
        → ListsBack w h r None lines
        → lines ≡ map (duty_line (changes w h)) (filter (is_open_of r) (duties w h)) }
    ensures closed { (w : Readings) (h : List Command) (r day : List ℕ) (lines : List DutyLine)
        → ListsBack w h r (Some day) lines → map (λ line. line.number) lines
        ≡ map (λ row. row.number) (filter (is_open_of r) (duties w (CloseDay day ∷ h))) }
    ensures lines { (w : Readings) (h : List Command) (r : List ℕ) (day : Option (List ℕ))
        (lines : List DutyLine) (line : DutyLine) → ListsBack w h r day lines → IsIn line lines
        → (all : List DutyLine) × (queried w h (query.Duties r) ≡ answered.Duties all)
        × IsIn line all }
    ensures totals { (w : Readings) (h : List Command) (r : List ℕ) (day : Option (List ℕ))
        → ListsBack w h r day [] → (totals : Totals)
        × (queried w h (query.Totals r) ≡ answered.Totals totals) × (totals.still_open ≡ 0) }
    ensures waivers { (w : Readings) (h : List Command) (r day : List ℕ)
        → ListsBack w h r (Some day) [] → (row : DutyRow) (last : List ℕ)
        → IsIn row (duties_of w h r)
        → is_waived row.state ≡ true → end_after (moves w h row.number) ≡ Some last
        → is_before last day ≡ false }
{}

/// A bill has each text once, in the order of first use: a text that differs from all before it is
/// added at the end, and any other is left out.
pub fn texts_are_billed_at_their_first_use()
    ensures new { (before : List TextOf) (text : TextOf)
        → list_any (λ other. is_same_text other text) before ≡ false
        → first_uses (before ++ (text ∷ [])) ≡ first_uses before ++ (text ∷ []) }
    ensures again { (before : List TextOf) (text : TextOf)
        → list_any (λ other. is_same_text other text) before ≡ true
        → first_uses (before ++ (text ∷ [])) ≡ first_uses before }
    ensures none { first_uses [] ≡ [] }
{}
