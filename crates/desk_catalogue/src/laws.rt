//! Laws of the definitions.

ghost use Rattle.std.specs.Prelude.{◌≡◌, ℕ, List, Option, Ok, Some, codes, length, option_map};
ghost use Rattle.std.specs.List.{IsDistinct};
ghost use Rattle.std.specs.List.Sorted.{IsStrictlySortedBy};
ghost use Rattle.std.specs.Result.{result_err};
ghost use Rattle.std.specs.Str.{bytes_eq};
ghost use Rattle.toml.specs.Data.{Data, Items, Members, as_table, get_member};
ghost use Rattle.desk_catalogue.specs.declared.catalogue.Catalogue.{Catalogue};
ghost use Rattle.desk_catalogue.specs.Terms.{ReadsTerms};
ghost use Rattle.desk_catalogue.specs.Kept.{same_licence};
ghost use Rattle.desk_catalogue.specs.AllFaults.{IsFirstOf, all_faults, place_of};
ghost use Rattle.desk_catalogue.specs.Faults.{duty_fault, rule_fault, text_fault};
ghost use Rattle.desk_catalogue.specs.Reading.{catalogue_of, catalogue_of_table, count, duty_at, rule_at, tables_of, text_at};
ghost use Rattle.desk_model.specs.FaultNumbers.{catalogue_fault_number};
ghost use Rattle.desk_model.specs.Keys.{rule_order};
ghost use Rattle.desk_model.specs.declared.refusal.CataloguePart.TheVariants as part;

/// There is a function that gives the printed term of each text that spells one, and none for any
/// other text.
pub fn terms_are_read()
    ensures { (terms : List ℕ → Option (List ℕ)) × ReadsTerms terms }
{}

/// A text has only one reading: `catalogue_of` says the same for every such function.
pub fn one_catalogue()
    ensures { (terms others : List ℕ → Option (List ℕ)) → ReadsTerms terms → ReadsTerms others
        → (text : List ℕ) → catalogue_of terms text ≡ catalogue_of others text }
{}

/// The rules of a catalogue are sorted by term and form, each pair once.
pub fn rules_stand_once()
    ensures { (terms : List ℕ → Option (List ℕ)) (text : List ℕ) (catalogue : Catalogue)
        → catalogue_of terms text ≡ Ok catalogue → IsStrictlySortedBy rule_order catalogue.rules }
{}

/// No form of a catalogue occurs twice, and no licence or exception has two texts.
pub fn forms_and_texts_stand_once()
    ensures { (terms : List ℕ → Option (List ℕ)) (text : List ℕ) (catalogue : Catalogue)
        → catalogue_of terms text ≡ Ok catalogue → IsDistinct bytes_eq catalogue.forms
        × IsDistinct same_licence catalogue.texts }
{}

/// The fault of a table is the least of those of its keys, each judged on its own: an absent key
/// before a value of another kind, then a term or licence that isn't one, a form that isn't listed,
/// a code without a duty, and a code that occurs twice. If its keys have no fault, a table has
/// none.
pub fn table_faults_are_the_least()
    ensures duty { (index : ℕ) (d : Data) (ms : Members) → as_table d ≡ Some ms
        → option_map catalogue_fault_number (result_err (duty_at index d)) ≡ duty_fault ms }
    ensures rule { (terms : List ℕ → Option (List ℕ)) (forms duties : List (List ℕ)) (index : ℕ)
        (d : Data) (ms : Members) → as_table d ≡ Some ms
        → option_map catalogue_fault_number (result_err (rule_at terms forms duties index d))
        ≡ rule_fault terms forms duties ms }
    ensures text { (index : ℕ) (d : Data) (ms : Members) → as_table d ≡ Some ms
        → option_map catalogue_fault_number (result_err (text_at index d)) ≡ text_fault ms }
{}

/// The fault of a text is the first of all its faults, each judged on its own: in the order of the
/// parts, then of the places in a part and of the numbers, except that of the forms all kinds come
/// before what occurs twice. A text without a fault is a catalogue.
pub fn the_fault_is_the_first_of_all()
    ensures { (terms : List ℕ → Option (List ℕ)) (text : List ℕ) → IsFirstOf (all_faults terms text)
        (option_map place_of (result_err (catalogue_of terms text))) }
{}

/// A catalogue has a rule for each rule table and a text for each text table: none replaces another.
pub fn each_table_is_kept()
    ensures { (terms : List ℕ → Option (List ℕ)) (ms : Members) (c : Catalogue)
        → catalogue_of_table terms ms ≡ Ok c
        → (rules texts : Items) × (tables_of part.Rule (get_member (codes "rule") ms) ≡ Ok rules)
        × (length c.rules ≡ count rules)
        × (tables_of part.Text (get_member (codes "text") ms) ≡ Ok texts)
        × (length c.texts ≡ count texts) }
{}
