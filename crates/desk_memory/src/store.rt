//! Rows kept in memory.

ghost use Rattle.std.specs.Prelude.{◌≡◌, ℕ, Bool, ◌+◌, ◌<◌, ◌≤◌, ◌++◌, [], ◌∷◌, ◌&&◌, not, find, filter, map, IfOk, IfErr, OnOk, OnErr, IfSome, IfNone, MatchOption, true, length, if◌then◌else◌, Option, vec_len, Some, None};
ghost use Rattle.std.specs.Vec.{vec_capacity};
ghost use Rattle.std.specs.Option.{option_copied, option_map};
ghost use Rattle.std.specs.List.{list_any};
ghost use Rattle.std.specs.Str.{bytes_eq};
ghost use Rattle.desk_model.specs.Lists.{updated};
ghost use Rattle.desk_model.specs.Keys.{is_release, is_document, is_revision, has_namespace, is_package, is_adoption, is_adoption_in, is_conclusion, is_shipped_by, is_attached_to, is_attachment, is_choice_of, is_duty, is_duty_of, is_change_of, is_rule, is_rule_of};
ghost use Rattle.desk_model.specs.Queries.{head_of};
ghost use Rattle.desk_model.specs.Tables.{Tables, applied, with_release_state, withdrawn_release};
ghost use Rattle.desk_model.specs.declared.state.ReleaseState.TheVariants.{Frozen};
ghost use Rattle.desk_access.specs.Follows.{Follows};
ghost use Rattle.desk_history.specs.Laws.{Ascends};
ghost use Rattle.desk_model.specs.Keys.{release_below};
ghost use Rattle.desk_tally.specs.Kept.{place_found, AreKept, Fits, IsPlaceFor, LeadsTo};
ghost use Rattle.desk_memory_rows.specs.Books.{takes};
ghost use Rattle.desk_memory_rows.specs.Holders.{holders_after};
ghost use Rattle.desk_sorted.specs.Blocks.{rows_in};
ghost use Rattle.desk_memory.specs.Memory.{rows_of, memory_seen};
ghost use Rattle.desk_history.specs.FromTables.{rule_of};

use crate::documents::Documents;
use crate::keys::{
    ByAttachment, ByDocument, ByExtracted, ByFrozen, ById, ByName, ByNumber, ByRelease,
};
use crate::rules::Rules;
use desk_access::store::Store;
use desk_base::{Day, Items, Text};
use desk_memory_rows::{ByAdopting, ByConcluded, ByPackage, ByReference, Choices, Ledger, Office};
use desk_model::{
    AttachedRow, CatalogueRow, Change, ChangeRow, ChoiceRow, DocumentHead, DocumentRow, DutyRow,
    ExtractedRow, Fault, FrozenRow, PackageRow, Profile, ReleaseRow, ReleaseState, Rule, RuleRow,
    Standing, Totals,
};
use desk_sorted::{Appended, Blocks, Sorted, reserve, run_of};
use desk_tally::{Step, Tallies};
use std::alloc::{AllocError, Global};

fn copy_of(text: &Option<Text>) -> Result<Option<Text>, AllocError>
    ensures { IfOk result (λ copy. copy ≡ text.now) }
{
    match text {
        Some(text) => Ok(Some(text.clone()?)),
        None => Ok(None),
    }
}

fn release_copy(row: &ReleaseRow) -> Result<ReleaseRow, AllocError>
    ensures { IfOk result (λ copy. copy ≡ row.now) }
{
    Ok(ReleaseRow {
        name: row.name.clone()?,
        place: row.place,
        form: row.form.clone()?,
        state: row.state,
        revision: row.revision,
    })
}

fn release_copies(alloc: Global, rows: &[ReleaseRow]) -> Result<Vec<ReleaseRow>, AllocError>
    ensures { IfOk result (λ copies. copies.items ≡ rows.now) }
{
    let mut copies = Vec::new(alloc);
    for row in rows {
        copies.push(release_copy(row)?)?;
    }
    Ok(copies)
}

/// A document without its bytes.
fn head_of(row: &DocumentRow) -> Result<DocumentHead, AllocError>
    ensures { IfOk result (λ head. head ≡ head_of row.now) }
{
    Ok(DocumentHead {
        number: row.number,
        namespace: row.namespace.clone()?,
        profile: row.profile,
    })
}

fn heads_of(alloc: Global, rows: &[DocumentRow]) -> Result<Vec<DocumentHead>, AllocError>
    ensures { IfOk result (λ heads. heads.items ≡ map head_of rows.now) }
{
    let mut heads = Vec::new(alloc);
    for row in rows {
        heads.push(head_of(row)?)?;
    }
    Ok(heads)
}

fn package_copy(row: &PackageRow) -> Result<PackageRow, AllocError>
    ensures { IfOk result (λ copy. copy ≡ row.now) }
{
    Ok(PackageRow {
        document: row.document,
        id: row.id.clone()?,
        name: row.name.clone()?,
        version: copy_of(&row.version)?,
        concluded: copy_of(&row.concluded)?,
        copyright: copy_of(&row.copyright)?,
        shipped: row.shipped,
    })
}

fn attached_copy(row: &AttachedRow) -> Result<AttachedRow, AllocError>
    ensures { IfOk result (λ copy. copy ≡ row.now) }
{
    Ok(AttachedRow {
        release: row.release.clone()?,
        document: row.document,
    })
}

fn duty_copy(row: &DutyRow) -> Result<DutyRow, AllocError>
    ensures { IfOk result (λ copy. copy ≡ row.now) }
{
    Ok(DutyRow {
        number: row.number,
        release: row.release.clone()?,
        document: row.document,
        package_id: row.package_id.clone()?,
        term: row.term.clone()?,
        code: row.code.clone()?,
        rule: row.rule.clone()?,
        state: row.state,
    })
}

fn codes_copy(alloc: Global, codes: &[Text]) -> Result<Items<Text>, AllocError>
    ensures { IfOk result (λ copy. copy ≡ codes.now) }
{
    let mut copy = Items::new(alloc);
    for code in codes {
        copy.push(code.clone()?)?;
    }
    Ok(copy)
}

fn rule_copy(alloc: Global, row: &RuleRow) -> Result<Rule, AllocError>
    ensures { IfOk result (λ copy. copy ≡ rule_of row.now) }
{
    Ok(Rule {
        term: row.term.clone()?,
        form: row.form.clone()?,
        spelled: row.spelled.clone()?,
        codes: codes_copy(alloc, row.codes.as_slice())?,
    })
}

fn shipped_rows(
    alloc: Global,
    rows: &[PackageRow],
    document: u32,
) -> Result<Vec<PackageRow>, AllocError>
    ensures { IfOk result (λ found. found.items ≡ filter (is_shipped_by document) rows.now) }
{
    let mut found = Vec::new(alloc);
    for row in rows {
        if row.document == document && row.shipped {
            found.push(package_copy(row)?)?;
        }
    }
    Ok(found)
}

fn attached_copies(alloc: Global, rows: &[&AttachedRow]) -> Result<Vec<AttachedRow>, AllocError>
    ensures { IfOk result (λ copies. copies.items ≡ map (λ row. row.now) rows.now) }
{
    let mut copies = Vec::new(alloc);
    for row in rows {
        copies.push(attached_copy(row)?)?;
    }
    Ok(copies)
}

fn terms_of(alloc: Global, rows: &[&ChoiceRow]) -> Result<Vec<Text>, AllocError>
    ensures { IfOk result (λ terms. terms.items ≡ map (λ row. row.now.term) rows.now) }
{
    let mut terms = Vec::new(alloc);
    for row in rows {
        terms.push(row.term.clone()?)?;
    }
    Ok(terms)
}

fn frozen_copy(row: &FrozenRow) -> Result<FrozenRow, AllocError>
    ensures { IfOk result (λ copy. copy ≡ row.now) }
{
    Ok(FrozenRow {
        release: row.release.clone()?,
        document: row.document,
        package_id: row.package_id.clone()?,
        term: row.term.clone()?,
        rule: row.rule.clone()?,
    })
}

fn frozen_copies(alloc: Global, rows: &[&FrozenRow]) -> Result<Vec<FrozenRow>, AllocError>
    ensures { IfOk result (λ copies. copies.items ≡ map (λ row. row.now) rows.now) }
{
    let mut copies = Vec::new(alloc);
    for row in rows {
        copies.push(frozen_copy(row)?)?;
    }
    Ok(copies)
}

/// A revision of the catalogue.
fn revision_in(rows: &[CatalogueRow], revision: u64) -> Option<&CatalogueRow>
    ensures { option_copied result ≡ find (is_revision revision) rows.now }
{
    rows.iter().find(|row| u64::from(row.revision) == revision)
}

fn change_copy(row: &ChangeRow) -> Result<ChangeRow, AllocError>
    ensures { IfOk result (λ copy. copy ≡ row.now) }
{
    Ok(ChangeRow {
        duty: row.duty,
        step: row.step,
        day: row.day,
        word: row.word,
        body: row.body.clone()?,
        last_day: row.last_day,
    })
}

fn change_copies(alloc: Global, rows: &[ChangeRow]) -> Result<Vec<ChangeRow>, AllocError>
    ensures { IfOk result (λ copies. copies.items ≡ rows.now) }
{
    let mut copies = Vec::new(alloc);
    for row in rows {
        copies.push(change_copy(row)?)?;
    }
    Ok(copies)
}

fn duties_of(alloc: Global, rows: &[DutyRow], release: &str) -> Result<Vec<DutyRow>, AllocError>
    ensures { IfOk result (λ found. found.items ≡ filter (is_duty_of release.now) rows.now) }
{
    let mut found = Vec::new(alloc);
    for row in rows {
        if row.release.as_str() == release {
            found.push(duty_copy(row)?)?;
        }
    }
    Ok(found)
}

fn has_form(forms: &[Text], form: &str) -> bool
    ensures { result ≡ list_any (bytes_eq form.now) forms.now }
{
    forms.iter().any(|other| form == other.as_str())
}

fn freeze_rows(rows: &mut [ReleaseRow], revision: u64)
    ensures { rows.new ≡ map (with_release_state Frozen revision) rows.old }
{
    for row in rows.iter_mut() {
        row.state = ReleaseState::Frozen;
        row.revision = revision;
    }
}

/// Freezes the release with a name.
fn freeze_release(releases: &mut Sorted<ReleaseRow>, name: &str, revision: u64)
    ensures { releases.new.rows.items ≡ updated (is_release name.now)
        (with_release_state Frozen revision) releases.old.rows.items }
{
    let run = run_of(releases.rows.as_slice(), &ByName { name });
    freeze_rows(&mut releases.rows[run.start..run.end], revision);
}

fn withdraw_rows(rows: &mut [ReleaseRow])
    ensures { rows.new ≡ map withdrawn_release rows.old }
{
    for row in rows.iter_mut() {
        row.state = ReleaseState::Withdrawn;
    }
}

/// Withdraws the release with a name.
fn withdraw_release(releases: &mut Sorted<ReleaseRow>, name: &str)
    ensures { releases.new.rows.items ≡ updated
        (is_release name.now) withdrawn_release releases.old.rows.items }
{
    let run = run_of(releases.rows.as_slice(), &ByName { name });
    withdraw_rows(&mut releases.rows[run.start..run.end]);
}

/// Rows in memory, each list by its key, with the tallies of the releases.
#[derive(Drop)]
pub struct MemStore {
    alloc: Global,
    catalogue: Vec<CatalogueRow>,
    forms: Items<Text>,
    rules: Rules,
    documents: Documents,
    packages: Appended<PackageRow>,
    extracted: Appended<ExtractedRow>,
    office: Office,
    releases: Sorted<ReleaseRow>,
    attached: Blocks<AttachedRow>,
    choices: Choices,
    frozen: Blocks<FrozenRow>,
    ledger: Ledger,
    tallies: Tallies,
}

impl MemStore {
    ghost use Rattle.desk_model.specs.Readings.{Readings};
    ghost use Rattle.desk_model.specs.Tables.{tables};

    /// The tables of the empty history.
    pub fn new(alloc: Global) -> MemStore
        ensures rows { (w : Readings) → rows_of result ≡ tables w [] }
        ensures kept { (w : Readings) → AreKept result.tallies (tables w []) }
        ensures holders { rows_in result.choices.holders.blocks.items ≡ [] }
    {
        MemStore {
            alloc,
            catalogue: Vec::new(alloc),
            forms: Items::new(alloc),
            rules: Rules::new(alloc),
            documents: Documents::new(alloc),
            packages: Appended::new(alloc),
            extracted: Appended::new(alloc),
            office: Office::new(alloc),
            releases: Sorted::new(alloc),
            attached: Blocks::new(alloc),
            choices: Choices::new(alloc),
            frozen: Blocks::new(alloc),
            ledger: Ledger::new(alloc),
            tallies: Tallies::new(alloc),
        }
    }

    fn load(
        &mut self,
        row: CatalogueRow,
        rules: Items<RuleRow>,
        forms: Items<Text>,
    ) -> Result<(), Fault>
        ensures ok { OnOk result (rows_of self.new
            ≡ applied (Change.Loaded row rules forms) (rows_of self.old)) }
        ensures err { OnErr result (rows_of self.new ≡ rows_of self.old) }
        ensures tallies { self.new.tallies ≡ self.old.tallies }
        ensures holders { rows_in self.new.choices.holders.blocks.items
            ≡ rows_in self.old.choices.holders.blocks.items }
        ensures fault { IfErr result (λ fault. fault ≡ Fault.Memory) }
    {
        reserve(&mut self.catalogue, 1)?;
        self.rules.append(rules.into_vec())?;
        self.catalogue.push_reserved(row);
        self.forms = forms;
        Ok(())
    }

    fn import(
        &mut self,
        row: DocumentRow,
        packages: Items<PackageRow>,
        references: Items<ExtractedRow>,
    ) -> Result<(), Fault>
        ensures ok { OnOk result (rows_of self.new
            ≡ applied (Change.Imported row packages references) (rows_of self.old)) }
        ensures err { OnErr result (rows_of self.new ≡ rows_of self.old) }
        ensures tallies { self.new.tallies ≡ self.old.tallies }
        ensures holders { rows_in self.new.choices.holders.blocks.items
            ≡ rows_in self.old.choices.holders.blocks.items }
        ensures fault { IfErr result (λ fault. fault ≡ Fault.Memory) }
    {
        let packages = packages.into_vec();
        let references = references.into_vec();
        self.packages.reserve(packages.len())?;
        self.extracted.reserve(references.len())?;
        self.documents.push(row)?;
        self.packages.append(packages);
        self.extracted.append(references);
        Ok(())
    }

    fn freeze(
        &mut self,
        release: &Text,
        revision: u64,
        frozen: Items<FrozenRow>,
        duties: Items<DutyRow>,
        changes: Items<ChangeRow>,
    ) -> Result<(), Fault>
        requires { takes (Change.Froze release.now revision frozen duties changes) self.old.ledger
            ≡ true }
        ensures ok { OnOk result (rows_of self.new
            ≡ applied (Change.Froze release.now revision frozen duties changes)
            (rows_of self.old)) }
        ensures err { OnErr result (rows_of self.new ≡ rows_of self.old) }
        ensures tallies { self.new.tallies ≡ self.old.tallies }
        ensures holders { rows_in self.new.choices.holders.blocks.items
            ≡ rows_in self.old.choices.holders.blocks.items }
        ensures fault { IfErr result (λ fault. fault ≡ Fault.Memory) }
    {
        let frozen = frozen.into_vec();
        let key = ByFrozen {
            release: release.as_str(),
        };
        let at = self.frozen.make_room_beside(&key, frozen.as_slice())?;
        self.ledger.append(duties.into_vec(), changes.into_vec())?;
        self.frozen.put_all(at, frozen);
        freeze_release(&mut self.releases, release.as_str(), revision);
        Ok(())
    }

    fn move_all(&mut self, changes: Items<ChangeRow>) -> Result<(), Fault>
        requires { takes (Change.Moved changes) self.old.ledger ≡ true }
        ensures ok { OnOk result
            (rows_of self.new ≡ applied (Change.Moved changes) (rows_of self.old)) }
        ensures err { OnErr result (rows_of self.new ≡ rows_of self.old) }
        ensures tallies { self.new.tallies ≡ self.old.tallies }
        ensures holders { rows_in self.new.choices.holders.blocks.items
            ≡ rows_in self.old.choices.holders.blocks.items }
        ensures fault { IfErr result (λ fault. fault ≡ Fault.Memory) }
    {
        self.ledger.move_all(changes.into_vec())?;
        Ok(())
    }

    fn withdraw(&mut self, release: &Text, changes: Items<ChangeRow>) -> Result<(), Fault>
        requires { takes (Change.Withdrew release.now changes) self.old.ledger ≡ true }
        ensures ok { OnOk result (rows_of self.new
            ≡ applied (Change.Withdrew release.now changes) (rows_of self.old)) }
        ensures err { OnErr result (rows_of self.new ≡ rows_of self.old) }
        ensures tallies { self.new.tallies ≡ self.old.tallies }
        ensures holders { OnOk result (rows_in self.new.choices.holders.blocks.items
            ≡ holders_after (Change.Withdrew release.now changes) (rows_of self.old)
            (rows_in self.old.choices.holders.blocks.items)) }
        ensures holders_err { OnErr result (rows_in self.new.choices.holders.blocks.items
            ≡ rows_in self.old.choices.holders.blocks.items) }
        ensures fault { IfErr result (λ fault. fault ≡ Fault.Memory) }
    {
        self.ledger.move_all(changes.into_vec())?;
        let place = self.place_of(release.as_str());
        withdraw_release(&mut self.releases, release.as_str());
        self.choices.withdraw(release, place);
        Ok(())
    }

    /// Writes the rows of a change, or nothing.
    fn write(&mut self, change: Change) -> Result<(), Fault>
        requires { takes change self.old.ledger ≡ true }
        ensures ok { OnOk result (rows_of self.new ≡ applied change (rows_of self.old)) }
        ensures err { OnErr result (rows_of self.new ≡ rows_of self.old) }
        ensures tallies { self.new.tallies ≡ self.old.tallies }
        ensures holders { OnOk result (rows_in self.new.choices.holders.blocks.items
            ≡ holders_after change (rows_of self.old)
            (rows_in self.old.choices.holders.blocks.items)) }
        ensures holders_err { OnErr result (rows_in self.new.choices.holders.blocks.items
            ≡ rows_in self.old.choices.holders.blocks.items) }
        ensures fault { IfErr result (λ fault. fault ≡ Fault.Memory) }
    {
        match change {
            Change::Loaded {
                catalogue,
                rules,
                forms,
            } => self.load(catalogue, rules, forms),
            Change::Imported {
                document,
                packages,
                references,
            } => self.import(document, packages, references),
            Change::Opened(row) => {
                self.releases.reserve(1)?;
                self.releases.put(row);
                Ok(())
            }
            Change::Attached(row) => {
                self.attached.put(row)?;
                Ok(())
            }
            Change::Chosen {
                release,
                document,
                package_id,
                rows,
            } => {
                let place = self.place_of(release.as_str());
                self.choices
                    .choose(&release, place, document, &package_id, rows)
            }
            Change::Froze {
                release,
                revision,
                frozen,
                duties,
                changes,
            } => self.freeze(&release, revision, frozen, duties, changes),
            Change::Moved { changes } => self.move_all(changes),
            Change::Withdrew { release, changes } => self.withdraw(&release, changes),
            Change::Concluded(row) => self.office.conclude(row),
            Change::Adopted(row) => self.office.adopt(row),
        }
    }

    /// What a change does to the tallies, with room made for it, or none if it doesn't follow from
    /// the rows.
    fn plan(&mut self, change: &Change) -> Result<Option<Step>, Fault>
        ensures takes { IfOk result (λ found. IfSome found (λ step.
            takes change.now self.new.ledger ≡ true)) }
        ensures fits { IfOk result (λ found. IfSome found (λ step. Fits step self.new.tallies)) }
        ensures leads { IfOk result (λ found. IfSome found (λ step.
            Ascends release_below (applied change.now (rows_of self.old)).releases
            → AreKept self.old.tallies (rows_of self.old)
            → LeadsTo step self.new.tallies (applied change.now (rows_of self.old)))) }
        ensures none { IfOk result (λ found. IfNone found (AreKept self.old.tallies
            (rows_of self.old) → Follows change.now (rows_of self.old) → ⊥)) }
        ensures kept { (t : Tables) → AreKept self.old.tallies t → AreKept self.new.tallies t }
        ensures rest { self.new ≡ record self.old { tallies = self.new.tallies } }
        ensures fault { IfErr result (λ fault. fault ≡ Fault.Memory) }
    {
        if !self.ledger.can_take(change) {
            return Ok(None);
        }
        let place = self.place_for(change);
        Ok(self.tallies.plan(change, place)?)
    }

    /// The place of a release.
    fn place_of(&self, name: &str) -> Option<u32>
        ensures { result ≡ place_found (rows_of self.now).releases name.now }
    {
        match self.releases.find(&ByName { name }) {
            Some(row) => Some(row.place),
            None => None,
        }
    }

    /// For a freeze, the place of its release.
    fn place_for(&self, change: &Change) -> Option<u32>
        ensures { IsPlaceFor change.now result (rows_of self.now) }
    {
        match change {
            Change::Froze { release, .. } => self.place_of(release.as_str()),
            _ => None,
        }
    }
}

impl Store for MemStore {
    ghost Left = { Unit {0} };

    ghost stands = { λ _ _. ⊥ };

    ghost seen = { memory_seen };

    ghost tells = { λ _. ⊥ };

    ghost may_miss = { ⊥ };

    fn revision_count(&mut self) -> Result<u64, Fault> {
        Ok(self.catalogue.len() as u64)
    }

    fn catalogue_text(&mut self, revision: u64) -> Result<Option<Text>, Fault> {
        match revision_in(self.catalogue.as_slice(), revision) {
            Some(row) => Ok(Some(row.body.clone()?)),
            None => Ok(None),
        }
    }

    fn has_form(&mut self, form: &str) -> Result<bool, Fault> {
        Ok(has_form(self.forms.as_slice(), form))
    }

    fn rule(&mut self, term: &str, form: &str) -> Result<Option<Rule>, Fault> {
        let revision = self.catalogue.len() as u64;
        match self.rules.find(revision, term, form) {
            Some(row) => Ok(Some(rule_copy(self.alloc, row)?)),
            None => Ok(None),
        }
    }

    fn document_count(&mut self) -> Result<u64, Fault> {
        Ok(self.documents.rows.len() as u64)
    }

    fn import_of(&mut self, namespace: &str, bytes: &[u8]) -> Result<Option<(u32, bool)>, Fault> {
        match self.documents.find_namespace(namespace) {
            Some(row) => Ok(Some((row.number, row.bytes.as_slice() == bytes))),
            None => Ok(None),
        }
    }

    fn document(&mut self, number: u64) -> Result<Option<(u32, Profile)>, Fault> {
        match self.documents.rows.find(&ByNumber { number }) {
            Some(row) => Ok(Some((row.number, row.profile))),
            None => Ok(None),
        }
    }

    fn documents(&mut self) -> Result<Vec<DocumentHead>, Fault> {
        Ok(heads_of(self.alloc, self.documents.rows.rows.as_slice())?)
    }

    fn document_source(&mut self, number: u64) -> Result<Option<(Items<u8>, Profile)>, Fault> {
        let Some(row) = self.documents.rows.find(&ByNumber { number }) else {
            return Ok(None);
        };
        let bytes = Vec::from_slice(self.alloc, row.bytes.as_slice())?;
        Ok(Some((Items::from_vec(bytes), row.profile)))
    }

    fn package_row(&mut self, document: u64, id: &str) -> Result<Option<PackageRow>, Fault> {
        match self.packages.find(&ById { document, id }) {
            Some(row) => Ok(Some(package_copy(row)?)),
            None => Ok(None),
        }
    }

    fn shipped(&mut self, document: u32) -> Result<Vec<PackageRow>, Fault> {
        let rows = self.packages.among(&ByDocument { document });
        Ok(shipped_rows(self.alloc, rows, document)?)
    }

    fn extracted_text(&mut self, document: u32, reference: &str) -> Result<Option<Text>, Fault> {
        match self.extracted.find(&ByExtracted {
            document,
            reference,
        }) {
            Some(row) => Ok(copy_of(&row.body)?),
            None => Ok(None),
        }
    }

    fn release(&mut self, name: &str) -> Result<Option<ReleaseRow>, Fault> {
        match self.releases.find(&ByName { name }) {
            Some(row) => Ok(Some(release_copy(row)?)),
            None => Ok(None),
        }
    }

    fn releases(&mut self) -> Result<Vec<ReleaseRow>, Fault> {
        Ok(release_copies(self.alloc, self.releases.rows.as_slice())?)
    }

    fn release_count(&mut self) -> Result<u64, Fault> {
        Ok(self.releases.len() as u64)
    }

    fn attached(&mut self, release: &str) -> Result<Vec<AttachedRow>, Fault> {
        let rows = self.attached.run(&ByRelease { release })?;
        Ok(attached_copies(self.alloc, rows.as_slice())?)
    }

    fn is_attached(&mut self, release: &str, document: u64) -> Result<bool, Fault> {
        Ok(self.attached.contains(&ByAttachment { release, document }))
    }

    fn attached_count(&mut self, release: &str) -> Result<u64, Fault> {
        Ok(self.attached.count_of(&ByRelease { release }) as u64)
    }

    fn chosen(&mut self, release: &str, document: u32, id: &str) -> Result<Vec<Text>, Fault> {
        let rows = self.choices.rows.run(&ByPackage {
            release,
            document,
            id,
        })?;
        Ok(terms_of(self.alloc, rows.as_slice())?)
    }

    fn frozen(&mut self, release: &str) -> Result<Vec<FrozenRow>, Fault> {
        let rows = self.frozen.run(&ByFrozen { release })?;
        Ok(frozen_copies(self.alloc, rows.as_slice())?)
    }

    fn conclusion(&mut self, document: u32, id: &str) -> Result<Option<Text>, Fault> {
        match self.office.conclusions.find(&ByConcluded { document, id }) {
            Some(row) => Ok(Some(row.expression.clone()?)),
            None => Ok(None),
        }
    }

    fn holder(&mut self, document: u32, id: &str) -> Result<Option<Text>, Fault> {
        match self.choices.holder(document, id) {
            Some(holder) => Ok(Some(holder.release.clone()?)),
            None => Ok(None),
        }
    }

    fn adoption(&mut self, document: u32, reference: &str) -> Result<Option<Text>, Fault> {
        match self.office.adoptions.find(&ByReference {
            document,
            reference,
        }) {
            Some(row) => Ok(Some(row.licence.clone()?)),
            None => Ok(None),
        }
    }

    fn adoption_count(&mut self, document: u32) -> Result<u64, Fault> {
        Ok(self.office.adoptions.count_of(&ByAdopting { document }) as u64)
    }

    fn duty(&mut self, number: u64) -> Result<Option<DutyRow>, Fault> {
        match self.ledger.find(number) {
            Some(row) => Ok(Some(duty_copy(row)?)),
            None => Ok(None),
        }
    }

    fn duty_count(&mut self) -> Result<u64, Fault> {
        Ok(self.ledger.len() as u64)
    }

    fn duties_of(&mut self, release: &str) -> Result<Vec<DutyRow>, Fault> {
        Ok(duties_of(self.alloc, self.ledger.duties(), release)?)
    }

    fn tally(&mut self, release: &str) -> Result<Option<Totals>, Fault> {
        match self.place_of(release) {
            Some(place) => Ok(self.tallies.totals(place)),
            None => Ok(None),
        }
    }

    fn standings_of(&mut self, release: &str) -> Result<Vec<Standing>, Fault> {
        Ok(self.ledger.standings_of(release)?)
    }

    fn ended(&mut self, day: Day) -> Result<Vec<Standing>, Fault> {
        Ok(self.ledger.ended(day)?)
    }

    fn steps(&mut self, duty: u64) -> Result<u64, Fault> {
        Ok(self.ledger.steps(duty))
    }

    fn changes_of(&mut self, duty: u64) -> Result<Vec<ChangeRow>, Fault> {
        Ok(change_copies(self.alloc, self.ledger.changes(duty))?)
    }

    fn last_day(&mut self, duty: u32) -> Result<Option<Day>, Fault> {
        Ok(self.ledger.last_day(u64::from(duty)))
    }

    // A change that doesn't follow from the rows comes from no command, so nothing is required of
    // it. If its duties, their changes or the place of its release don't follow, it is ignored; any
    // other is written as it is.
    fn commit(&mut self, change: Change) -> Result<(), Fault> {
        let Some(step) = self.plan(&change)? else {
            return Ok(());
        };
        self.write(change)?;
        self.tallies.take(step);
        Ok(())
    }
}
