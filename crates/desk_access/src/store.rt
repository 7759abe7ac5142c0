//! What keeps the rows.

ghost use Rattle.std.specs.Prelude.{◌≡◌, ℕ, Bool, ◌+◌, ◌<◌, ◌^◌, List, IfOk, IfErr, IfSome, OnOk, OnErr, length, filter, find, map};
ghost use Rattle.std.specs.Option.{option_map};
ghost use Rattle.std.specs.List.{list_any};
ghost use Rattle.std.specs.Str.{bytes_eq};
ghost use Rattle.desk_model.specs.Keys.{is_attachment, is_change_of, is_choice_of, is_document, is_duty_of, is_package, is_shipped_by, has_namespace};
ghost use Rattle.desk_model.specs.Bills.{extracted_text, revision_text};
ghost use Rattle.desk_model.specs.Tables.{Tables};
ghost use Rattle.desk_access.specs.Seen.{Seen, Looked, OfRows, Wrote};
ghost use Rattle.desk_model.specs.Faults.{MayFail};
ghost use Rattle.desk_model.specs.History.{attached_to, rule_for};
ghost use Rattle.desk_model.specs.Queries.{head_of, last_day, totals_of};
ghost use Rattle.desk_model.specs.Conclusions.{licence_for, office_text};
ghost use Rattle.desk_model.specs.Findings.{source_of};
ghost use Rattle.desk_history.specs.FromTables.{adoption_count, holder_found, release_found, rules_found, duty_found, steps_found, standings_found, ended_found, known_import, known_document};
ghost use Rattle.desk_model.specs.declared.command.StoreFault.{StoreFault};

use desk_base::{Day, Items, Text};
use desk_model::{
    AttachedRow, Change, ChangeRow, DocumentHead, DutyRow, Fault, FrozenRow, PackageRow, Profile,
    ReleaseRow, Rule, Standing, Totals,
};

/// Tables of rows, in memory or in a database. Look-ups don't change the rows; only `commit`
/// writes, all of a change or nothing.
///
/// What contracts see of a store is whether tables are its rows, whether its disk has been honest,
/// whether it still shows its rows, and what a stop could leave. In memory the rows are always
/// shown, and nothing outlives a stop.
pub trait Store {
    /// What a stop of the program may leave of a store.
    ghost Left: { Type 0 };

    /// What is left after a stop holds these rows.
    ghost stands: { Left → Tables → Type 0 };

    /// What contracts see of the store.
    ghost seen: { Self → Seen Left };

    /// The faults that are the store's own and that it may return.
    ghost tells: { StoreFault → Type 0 };

    /// Whether a look-up that needs no memory may fail.
    ghost may_miss: { Type 0 };

    /// How many revisions of the catalogue there are; the last one is in force.
    fn revision_count(&mut self) -> Result<u64, Fault>
        ensures found { IfOk result (λ n. OfRows (λ t.
            n ≡ length t.catalogue) (seen self.old) (seen self.new)) }
        ensures kept { Looked (seen self.old) (seen self.new) result }
        ensures misses { OnErr result may_miss }
        ensures fault { IfErr result (MayFail tells) };

    /// The text of a revision of the catalogue.
    fn catalogue_text(&mut self, revision: u64) -> Result<Option<Text>, Fault>
        ensures found { IfOk result (λ found. OfRows (λ t.
            found ≡ revision_text t.catalogue revision) (seen self.old) (seen self.new)) }
        ensures kept { Looked (seen self.old) (seen self.new) result }
        ensures fault { IfErr result (MayFail tells) };

    /// Whether the catalogue in force has a form.
    fn has_form(&mut self, form: &str) -> Result<bool, Fault>
        ensures found { IfOk result (λ has. OfRows (λ t.
            has ≡ list_any (bytes_eq form.now) t.forms) (seen self.old) (seen self.new)) }
        ensures kept { Looked (seen self.old) (seen self.new) result }
        ensures misses { OnErr result may_miss }
        ensures fault { IfErr result (MayFail tells) };

    /// The rule in force for a term and a form.
    fn rule(&mut self, term: &str, form: &str) -> Result<Option<Rule>, Fault>
        ensures found { IfOk result (λ found. OfRows (λ t.
            found ≡ rule_for (rules_found t) term.now form.now) (seen self.old) (seen self.new)) }
        ensures kept { Looked (seen self.old) (seen self.new) result }
        ensures fault { IfErr result (MayFail tells) };

    /// How many documents were imported.
    fn document_count(&mut self) -> Result<u64, Fault>
        ensures found { IfOk result
            (λ n. OfRows (λ t. n ≡ length t.document) (seen self.old) (seen self.new)) }
        ensures kept { Looked (seen self.old) (seen self.new) result }
        ensures misses { OnErr result may_miss }
        ensures fault { IfErr result (MayFail tells) };

    /// The document with this namespace: its number, and whether its bytes are these.
    fn import_of(&mut self, namespace: &str, bytes: &[u8]) -> Result<Option<(u32, bool)>, Fault>
        ensures found { IfOk result (λ found. OfRows (λ t.
            found ≡ option_map (known_import bytes.now)
            (find (has_namespace namespace.now) t.document)) (seen self.old) (seen self.new)) }
        ensures kept { Looked (seen self.old) (seen self.new) result }
        ensures misses { OnErr result may_miss }
        ensures fault { IfErr result (MayFail tells) };

    /// A document by its number: the number, and its profile.
    fn document(&mut self, number: u64) -> Result<Option<(u32, Profile)>, Fault>
        ensures found { IfOk result (λ found. OfRows (λ t.
            found ≡ option_map known_document (find (is_document number) t.document))
            (seen self.old)
            (seen self.new)) }
        ensures same { IfOk result (λ found. IfSome found (λ known. known.0 ≡ number)) }
        ensures kept { Looked (seen self.old) (seen self.new) result }
        ensures misses { OnErr result may_miss }
        ensures fault { IfErr result (MayFail tells) };

    /// All documents by number, without their bytes.
    fn documents(&mut self) -> Result<Vec<DocumentHead>, Fault>
        ensures found { IfOk result (λ found. OfRows (λ t.
            found.items ≡ map head_of t.document) (seen self.old) (seen self.new)) }
        ensures kept { Looked (seen self.old) (seen self.new) result }
        ensures fault { IfErr result (MayFail tells) };

    /// The bytes of a document, and its profile.
    fn document_source(&mut self, number: u64) -> Result<Option<(Items<u8>, Profile)>, Fault>
        ensures found { IfOk result (λ found. OfRows (λ t.
            found ≡ option_map source_of (find (is_document number) t.document)) (seen self.old)
            (seen self.new)) }
        ensures kept { Looked (seen self.old) (seen self.new) result }
        ensures fault { IfErr result (MayFail tells) };

    /// A package of a document.
    fn package_row(&mut self, document: u64, id: &str) -> Result<Option<PackageRow>, Fault>
        ensures found { IfOk result (λ found. OfRows (λ t.
            found ≡ find (is_package document id.now) t.packages) (seen self.old) (seen self.new)) }
        ensures kept { Looked (seen self.old) (seen self.new) result }
        ensures fault { IfErr result (MayFail tells) };

    /// The shipped packages of a document, by id.
    fn shipped(&mut self, document: u32) -> Result<Vec<PackageRow>, Fault>
        ensures found { IfOk result (λ found. OfRows (λ t.
            found.items ≡ filter (is_shipped_by document) t.packages) (seen self.old)
            (seen self.new)) }
        ensures kept { Looked (seen self.old) (seen self.new) result }
        ensures fault { IfErr result (MayFail tells) };

    /// The text that a document gives for a reference.
    fn extracted_text(&mut self, document: u32, reference: &str) -> Result<Option<Text>, Fault>
        ensures found { IfOk result (λ found. OfRows (λ t.
            found ≡ extracted_text t.extracted document reference.now) (seen self.old)
            (seen self.new)) }
        ensures kept { Looked (seen self.old) (seen self.new) result }
        ensures fault { IfErr result (MayFail tells) };

    /// A release by its name.
    fn release(&mut self, name: &str) -> Result<Option<ReleaseRow>, Fault>
        ensures found { IfOk result (λ found. OfRows (λ t.
            found ≡ release_found t name.now) (seen self.old) (seen self.new)) }
        ensures kept { Looked (seen self.old) (seen self.new) result }
        ensures fault { IfErr result (MayFail tells) };

    /// All releases, by name.
    fn releases(&mut self) -> Result<Vec<ReleaseRow>, Fault>
        ensures found { IfOk result (λ found. OfRows (λ t.
            found.items ≡ t.releases) (seen self.old) (seen self.new)) }
        ensures kept { Looked (seen self.old) (seen self.new) result }
        ensures fault { IfErr result (MayFail tells) };

    /// How many releases were opened, withdrawn ones included.
    fn release_count(&mut self) -> Result<u64, Fault>
        ensures found { IfOk result
            (λ n. OfRows (λ t. n ≡ length t.releases) (seen self.old) (seen self.new)) }
        ensures kept { Looked (seen self.old) (seen self.new) result }
        ensures misses { OnErr result may_miss }
        ensures fault { IfErr result (MayFail tells) };

    /// The documents attached to a release, by number.
    fn attached(&mut self, release: &str) -> Result<Vec<AttachedRow>, Fault>
        ensures found { IfOk result (λ found. OfRows (λ t.
            found.items ≡ attached_to t.attached release.now) (seen self.old) (seen self.new)) }
        ensures kept { Looked (seen self.old) (seen self.new) result }
        ensures fault { IfErr result (MayFail tells) };

    /// Whether a document is attached to a release.
    fn is_attached(&mut self, release: &str, document: u64) -> Result<bool, Fault>
        ensures found { IfOk result (λ is. OfRows (λ t.
            is ≡ list_any (is_attachment release.now document) t.attached) (seen self.old)
            (seen self.new)) }
        ensures kept { Looked (seen self.old) (seen self.new) result }
        ensures misses { OnErr result may_miss }
        ensures fault { IfErr result (MayFail tells) };

    /// How many documents are attached to a release.
    fn attached_count(&mut self, release: &str) -> Result<u64, Fault>
        ensures found { IfOk result (λ n. OfRows (λ t.
            n ≡ length (attached_to t.attached release.now)) (seen self.old) (seen self.new)) }
        ensures kept { Looked (seen self.old) (seen self.new) result }
        ensures misses { OnErr result may_miss }
        ensures fault { IfErr result (MayFail tells) };

    /// The terms chosen for a package in a release, in order.
    fn chosen(&mut self, release: &str, document: u32, id: &str) -> Result<Vec<Text>, Fault>
        ensures found { IfOk result (λ found. OfRows (λ t.
            found.items ≡ map (λ row. row.term)
            (filter (is_choice_of release.now document id.now) t.choice)) (seen self.old)
            (seen self.new)) }
        ensures kept { Looked (seen self.old) (seen self.new) result }
        ensures fault { IfErr result (MayFail tells) };

    /// The terms that a release was frozen with, by document and package, each with its rule.
    fn frozen(&mut self, release: &str) -> Result<Vec<FrozenRow>, Fault>
        ensures found { IfOk result (λ found. OfRows (λ t.
            found.items ≡ filter (λ row. bytes_eq row.release release.now) t.frozen) (seen self.old)
            (seen self.new)) }
        ensures kept { Looked (seen self.old) (seen self.new) result }
        ensures fault { IfErr result (MayFail tells) };

    /// What the office concluded for a package of a document.
    fn conclusion(&mut self, document: u32, id: &str) -> Result<Option<Text>, Fault>
        ensures found { IfOk result (λ found. OfRows (λ t.
            found ≡ office_text t.conclusion document id.now) (seen self.old) (seen self.new)) }
        ensures kept { Looked (seen self.old) (seen self.new) result }
        ensures fault { IfErr result (MayFail tells) };

    /// The first release opened that holds a choice for a package of a document.
    fn holder(&mut self, document: u32, id: &str) -> Result<Option<Text>, Fault>
        ensures found { IfOk result (λ found. OfRows (λ t.
            found ≡ holder_found t document id.now) (seen self.old) (seen self.new)) }
        ensures kept { Looked (seen self.old) (seen self.new) result }
        ensures fault { IfErr result (MayFail tells) };

    /// The licence that a reference of a document is adopted as.
    fn adoption(&mut self, document: u32, reference: &str) -> Result<Option<Text>, Fault>
        ensures found { IfOk result (λ found. OfRows (λ t.
            found ≡ licence_for t.adoption document reference.now) (seen self.old)
            (seen self.new)) }
        ensures kept { Looked (seen self.old) (seen self.new) result }
        ensures fault { IfErr result (MayFail tells) };

    /// How many references of a document are adopted.
    fn adoption_count(&mut self, document: u32) -> Result<u64, Fault>
        ensures found { IfOk result (λ n. OfRows (λ t.
            n ≡ adoption_count t document) (seen self.old) (seen self.new)) }
        ensures kept { Looked (seen self.old) (seen self.new) result }
        ensures misses { OnErr result may_miss }
        ensures fault { IfErr result (MayFail tells) };

    /// A duty by its number.
    fn duty(&mut self, number: u64) -> Result<Option<DutyRow>, Fault>
        ensures found { IfOk result (λ found. OfRows (λ t.
            found ≡ duty_found t number) (seen self.old) (seen self.new)) }
        ensures same { IfOk result (λ found. IfSome found (λ row. row.number ≡ number)) }
        ensures kept { Looked (seen self.old) (seen self.new) result }
        ensures fault { IfErr result (MayFail tells) };

    /// How many duties were raised, whatever their states.
    fn duty_count(&mut self) -> Result<u64, Fault>
        ensures found { IfOk result
            (λ n. OfRows (λ t. n ≡ length t.duty) (seen self.old) (seen self.new)) }
        ensures kept { Looked (seen self.old) (seen self.new) result }
        ensures misses { OnErr result may_miss }
        ensures fault { IfErr result (MayFail tells) };

    /// The duties of a release, by number.
    fn duties_of(&mut self, release: &str) -> Result<Vec<DutyRow>, Fault>
        ensures found { IfOk result (λ found. OfRows (λ t.
            found.items ≡ filter (is_duty_of release.now) t.duty) (seen self.old) (seen self.new)) }
        ensures kept { Looked (seen self.old) (seen self.new) result }
        ensures fault { IfErr result (MayFail tells) };

    /// How many duties of a release were raised and how many are in each state, or `None` if there
    /// is no such release.
    fn tally(&mut self, release: &str) -> Result<Option<Totals>, Fault>
        ensures found { IfOk result (λ found. OfRows (λ t.
            found ≡ option_map (λ row. totals_of (filter (is_duty_of release.now) t.duty))
            (release_found t release.now)) (seen self.old) (seen self.new)) }
        ensures kept { Looked (seen self.old) (seen self.new) result }
        ensures misses { OnErr result may_miss }
        ensures fault { IfErr result (MayFail tells) };

    /// The standings of the duties of a release, by number.
    fn standings_of(&mut self, release: &str) -> Result<Vec<Standing>, Fault>
        ensures found { IfOk result (λ found. OfRows (λ t.
            found.items ≡ standings_found t release.now) (seen self.old) (seen self.new)) }
        ensures kept { Looked (seen self.old) (seen self.new) result }
        ensures fault { IfErr result (MayFail tells) };

    /// The standings of the duties whose waivers have a last day before this one, by number.
    fn ended(&mut self, day: Day) -> Result<Vec<Standing>, Fault>
        ensures found { IfOk result (λ found. OfRows (λ t.
            found.items ≡ ended_found t day) (seen self.old) (seen self.new)) }
        ensures kept { Looked (seen self.old) (seen self.new) result }
        ensures fault { IfErr result (MayFail tells) };

    /// How many changes a duty has.
    fn steps(&mut self, duty: u64) -> Result<u64, Fault>
        ensures found { IfOk result (λ n. OfRows (λ t.
            n ≡ steps_found t duty) (seen self.old) (seen self.new)) }
        ensures kept { Looked (seen self.old) (seen self.new) result }
        ensures misses { OnErr result may_miss }
        ensures fault { IfErr result (MayFail tells) };

    /// The changes of a duty, by step.
    fn changes_of(&mut self, duty: u64) -> Result<Vec<ChangeRow>, Fault>
        ensures found { IfOk result (λ found. OfRows (λ t.
            found.items ≡ filter (is_change_of duty) t.changes) (seen self.old) (seen self.new)) }
        ensures kept { Looked (seen self.old) (seen self.new) result }
        ensures fault { IfErr result (MayFail tells) };

    /// The day of a duty's last change, if it has one.
    fn last_day(&mut self, duty: u32) -> Result<Option<Day>, Fault>
        ensures found { IfOk result (λ day. OfRows (λ t.
            day ≡ last_day (filter (is_change_of duty) t.changes)) (seen self.old)
            (seen self.new)) }
        ensures kept { Looked (seen self.old) (seen self.new) result }
        ensures misses { OnErr result may_miss }
        ensures fault { IfErr result (MayFail tells) };

    /// Writes all of a change, or nothing.
    fn commit(&mut self, change: Change) -> Result<(), Fault>
        ensures wrote { Wrote stands change (seen self.old) (seen self.new) result }
        ensures fault { IfErr result (MayFail tells) };
}
