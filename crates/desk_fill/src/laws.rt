//! Laws of filling.

ghost use Rattle.std.specs.Prelude.{◌≡◌, ℕ, List, Contains, IsSomeAnd, true, false, map};
ghost use Rattle.std.specs.List.{flat_map};
ghost use Rattle.desk_model.specs.declared.bill.Bill.{Bill};
ghost use Rattle.desk_model.specs.declared.bill.BillLine.{BillLine};
ghost use Rattle.desk_model.specs.declared.bill.BillText.{BillText};
ghost use Rattle.desk_model.specs.declared.reading.LicenceText.{LicenceText};
ghost use Rattle.desk_fill.specs.declared.fill.Credit.{Credit};
ghost use Rattle.desk_fill.specs.declared.fill.Fill.{Fill};
ghost use Rattle.desk_fill.specs.Filling.{filled, filled_line, filled_text, fits, gaps_of, is_text_of, lacks_body, lacks_credit};

/// A bill without gaps is filled to itself.
pub fn full_bills_stay()
    ensures { (fills : List Fill) (bill : Bill) → (gaps_of bill).credits ≡ 0 → (gaps_of bill).texts ≡ 0
        → filled fills bill ≡ bill }
{}

/// A bill that is filled is filled to itself by the same files.
pub fn filling_twice_is_filling_once()
    ensures { (fills : List Fill) (bill : Bill)
        → filled fills (filled fills bill) ≡ filled fills bill }
{}

/// What is given is neither removed nor changed: a copyright, a text, and of any package its name,
/// its version and its licences.
pub fn given_values_stay()
    ensures credit { (fills : List Fill) (line : BillLine) → lacks_credit line ≡ false
        → filled_line fills line ≡ line }
    ensures text { (fills : List Fill) (text : BillText) → lacks_body text ≡ false
        → filled_text fills text ≡ text }
    ensures others { (fills : List Fill) (line : BillLine)
        → ((filled_line fills line).name ≡ line.name)
        × ((filled_line fills line).version ≡ line.version)
        × ((filled_line fills line).rules ≡ line.rules) }
    ensures title { (fills : List Fill) (text : BillText)
        → (filled_text fills text).title ≡ text.title }
{}

/// A gap is filled if some entry of the files fits it, and from an entry that does: of each package
/// and each term of a bill.
pub fn gaps_are_filled()
    ensures credit { (fills : List Fill) (line : BillLine) (credit : Credit)
        → Contains (flat_map (λ fill. fill.credits) fills) credit → fits line credit ≡ true
        → lacks_credit line ≡ true → IsSomeAnd (filled_line fills line).copyright (λ text.
        (found : Credit) × Contains (flat_map (λ fill. fill.credits) fills) found
        × (fits line found ≡ true) × (text ≡ found.text)) }
    ensures text { (fills : List Fill) (text : BillText) (own : LicenceText)
        → Contains (flat_map (λ fill. fill.texts) fills) own → is_text_of text.title own ≡ true
        → lacks_body text ≡ true → IsSomeAnd (filled_text fills text).body (λ body.
        (found : LicenceText) × Contains (flat_map (λ fill. fill.texts) fills) found
        × (is_text_of text.title found ≡ true) × (body ≡ found.body)) }
    ensures lines { (fills : List Fill) (bill : Bill)
        → (filled fills bill).lines ≡ map (filled_line fills) bill.lines }
    ensures texts { (fills : List Fill) (bill : Bill)
        → (filled fills bill).texts ≡ map (filled_text fills) bill.texts }
{}
