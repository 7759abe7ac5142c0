//! The store: the desk's rows over a connection.
//!
//! Its look-ups and its commit do what the trait says, and its contracts also say when they fail
//! (`specs/Causes.antt`).

ghost use Rattle.std.specs.Prelude.{◌≡◌, ℕ, List, true, false, unwrap_or, IfErr, IfOk, IfSome, OnErr, OnOk, length, filter, find, map};
ghost use Rattle.std.specs.Option.{option_map};
ghost use Rattle.std.specs.List.{list_any};
ghost use Rattle.std.specs.Str.{bytes_eq};
ghost use Rattle.sqlite_trees.specs.Tree.{Trees};
ghost use Rattle.sqlite.specs.Held.{state};
ghost use Rattle.desk_model.specs.Tables.{Tables, applied, tables};
ghost use Rattle.desk_access.specs.Follows.{Follows};
ghost use Rattle.desk_access.specs.Seen.{Failed, Looked, Made, Wrote};
ghost use Rattle.desk_history.specs.Laws.{Ascends};
ghost use Rattle.desk_core.specs.Desks.{InHistory};
ghost use Rattle.desk_sql_layout.specs.Held.{Stands, known_of, seen_of};
ghost use Rattle.desk_sql_layout.specs.Writable.{is_writable};
ghost use Rattle.desk_sql_lookup.specs.LookUps.{LooksUp, LooksUpGiven};
ghost use Rattle.desk_sql_write.specs.Taking.{HasSmallRevision};
ghost use Rattle.desk_model.specs.Bills.{extracted_text, revision_text};
ghost use Rattle.desk_model.specs.Conclusions.{licence_for, office_text};
ghost use Rattle.desk_model.specs.Findings.{source_of};
ghost use Rattle.desk_model.specs.History.{attached_to, rule_for};
ghost use Rattle.desk_model.specs.Keys.{has_namespace, is_attachment, is_change_of, is_choice_of, is_document, is_duty_of, is_package, is_shipped_by, release_below};
ghost use Rattle.desk_model.specs.Queries.{head_of, last_day, totals_of};
ghost use Rattle.desk_history.specs.FromTables.{adoption_count, duty_found, ended_found, holder_found, known_document, known_import, release_found, rules_found, standings_found, steps_found};
ghost use Rattle.desk_tally.specs.Kept.{AreKept, Fits, IsPlaceFor, LeadsTo};
ghost use Rattle.desk_snapshot.specs.Tables.{snapshot_of};
ghost use Rattle.desk_sql_cache.specs.Found.{AreFound, nothing_kept};
ghost use Rattle.desk_sql_cache.specs.Holding.{have_releases};
ghost use Rattle.desk_store.specs.Auditing.{IsAudit};
ghost use Rattle.desk_store.specs.Causes.{CommitFailsFor, Finds, FindsIf, MissesIf};
ghost use Rattle.desk_store.specs.Counting.{forms_after, forms_noted, known_by, tallied};
ghost use Rattle.desk_texts.specs.Right.{AreRight};

use crate::audit::audit_connection;
use crate::counts::counts_after;
use desk_access::store::Store;
use desk_base::{Day, Items, Text};
use desk_beside::Counts;
use desk_memory_rows::ByPackage;
use desk_model::{
    AttachedRow, Change, ChangeRow, DocumentHead, DutyRow, Fault, FrozenRow, PackageRow, Profile,
    ReleaseRow, Rule, Standing, StoreFault, Totals,
};
use desk_snapshot::{AuditReport, Snapshot};
use desk_sorted::Appended;
use desk_sql_cache::{
    Choices, Conclusions, Found, expression_in, found_after, read_adoptions, read_holders,
    release_place, terms_in,
};
use desk_sql_commit::commit_counted;
use desk_tally::{Step, Tallies};
use sqlite::{Alter, Connection};
use std::alloc::Global;

/// Rows in a database, with how many there are of some kinds, the forms of the catalogue in force,
/// the tallies of the releases, and what was found that look-ups ask for again.
#[derive(Drop)]
pub struct SqlStore<S: Alter> {
    alloc: Global,
    conn: Connection<S>,
    counts: Counts,
    forms: Items<Text>,
    tallies: Tallies,
    found: Found,
    ghost idle: { conn.in_transaction ≡ false },
}

impl<S: Alter> SqlStore<S> {
    /// The store over a connection that is in no transaction. The tables that the connection shows
    /// are the store's rows, if they have this many rows, these are the forms of the catalogue in
    /// force, and the tallies are theirs.
    pub fn over(
        alloc: Global,
        conn: Connection<S>,
        counts: Counts,
        forms: Items<Text>,
        tallies: Tallies,
    ) -> SqlStore<S>
        requires { conn.in_transaction ≡ false }
        ensures holds { (t : Tables) → known_of t ≡ known_by counts forms → AreKept tallies t
            → (seen_of (state S.Store conn)).holds t
            → (⟦<SqlStore<S> as Store>⟧.seen result).holds t }
        ensures same { result.conn ≡ conn }
    {
        SqlStore {
            alloc,
            conn,
            counts,
            forms,
            tallies,
            found: Found::nothing(),
        }
    }

    /// Returns the connection, which shows the store's rows and is in no transaction. A stop leaves
    /// of it what it could leave of the store.
    pub fn into_connection(self) -> Connection<S>
        ensures same { result ≡ self.conn }
        ensures idle { result.in_transaction ≡ false }
        ensures holds { (t : Tables) → (⟦<SqlStore<S> as Store>⟧.seen self).holds t
            → (seen_of (state S.Store result)).holds t }
        ensures leaves { (left : Trees) → (state S.Store result).may_leave left
            → (⟦<SqlStore<S> as Store>⟧.seen self).leaves left }
    {
        let SqlStore {
            alloc: _,
            conn,
            counts: _,
            forms: _,
            tallies: _,
            found: _,
        } = self;
        conn
    }
}

impl<S: Alter> SqlStore<S> {
    /// Audits the tables as `audit_connection` does. The store is as it was.
    pub fn audit(&mut self) -> Result<AuditReport, Fault>
        ensures told { IfOk result
            (IsAudit (state S.Store self.old.conn) (state S.Store self.new.conn)) }
        ensures sound { IfOk result (λ report. InHistory AreRight (λ w h.
            report ≡ AuditReport.Sound) (⟦<SqlStore<S> as Store>⟧.seen self.old)
            (⟦<SqlStore<S> as Store>⟧.seen self.new)) }
        ensures kept { Looked (⟦<SqlStore<S> as Store>⟧.seen self.old)
            (⟦<SqlStore<S> as Store>⟧.seen self.new) result }
        ensures cause { IfErr result (MissesIf (λ t. Unit {0})
            (⟦<SqlStore<S> as Store>⟧.seen self.old) (state S.Store self.old.conn)
            (state S.Store self.new.conn)) }
    {
        audit_connection(self.alloc, &mut self.conn)
    }

    /// All rows of the tables, as `desk_sql_scan::snapshot` reads them. The store is as it was.
    pub fn snapshot(&mut self) -> Result<Snapshot, Fault>
        ensures found { IfOk result (λ snapshot. InHistory AreRight (λ w h.
            snapshot ≡ snapshot_of (tables w h)) (⟦<SqlStore<S> as Store>⟧.seen self.old)
            (⟦<SqlStore<S> as Store>⟧.seen self.new)) }
        ensures kept { Looked (⟦<SqlStore<S> as Store>⟧.seen self.old)
            (⟦<SqlStore<S> as Store>⟧.seen self.new) result }
        ensures cause { IfErr result (MissesIf (λ t. Unit {0})
            (⟦<SqlStore<S> as Store>⟧.seen self.old) (state S.Store self.old.conn)
            (state S.Store self.new.conn)) }
    {
        desk_history::listed_tables_are_sorted();
        desk_history_laws::right_readings_list_in_order();
        desk_sql_scan::snapshot(self.alloc, &mut self.conn)
    }

    /// Keeps the forms of a catalogue that was loaded, if the change was written.
    fn take_forms(&mut self, change: Change, is_written: bool)
        ensures forms { self.new.forms ≡ forms_noted is_written change self.old.forms }
        ensures conn { self.new.conn ≡ self.old.conn }
        ensures counts { self.new.counts ≡ self.old.counts }
        ensures tallies { self.new.tallies ≡ self.old.tallies }
        ensures found { self.new.found ≡ self.old.found }
    {
        let Some(forms) = forms_of(change) else {
            return;
        };
        if is_written {
            self.forms = forms;
        }
    }
}

/// For a freeze, the place of its release.
fn place_for<S: Alter>(
    alloc: Global,
    conn: &mut Connection<S>,
    change: &Change,
) -> Result<Option<u32>, Fault>
    ensures { LooksUp S.Store conn.old conn.new result (IsPlaceFor change.now) }
{
    let Change::Froze { release, .. } = change else {
        return Ok(None);
    };
    release_place(alloc, conn, release.as_str())
}

impl<S: Alter> SqlStore<S> {
    /// The step of a change in the tallies, with room made for it.
    fn plan(&mut self, change: &Change) -> Result<Step, Fault>
        ensures looks { LooksUpGiven S.Store (λ t. AreKept self.old.tallies t
            × Follows change.now t) self.old.conn self.new.conn result (λ step t.
            Ascends release_below (applied change.now t).releases → AreKept self.old.tallies t
            → LeadsTo step self.new.tallies (applied change.now t)) }
        ensures fits { IfOk result (λ step. Fits step self.new.tallies) }
        ensures tallies { (t : Tables) → AreKept self.old.tallies t → AreKept self.new.tallies t }
        ensures counts { self.new.counts ≡ self.old.counts }
        ensures forms { self.new.forms ≡ self.old.forms }
        ensures found { self.new.found ≡ self.old.found }
    {
        let place = place_for(self.alloc, &mut self.conn, change)?;
        match self.tallies.plan(change, place)? {
            Some(step) => Ok(step),
            None => Err(Fault::Store(StoreFault::Rows)),
        }
    }
}

/// What goes with a change that is to be written, looked up before it is.
#[derive(Drop)]
struct Prepared {
    found: Found,
    step: Step,
}

impl<S: Alter> SqlStore<S> {
    /// Looks up what goes with a change, and drops what was found before it.
    fn prepare(&mut self, change: &Change) -> Result<Prepared, Fault>
        ensures looks { LooksUpGiven S.Store (λ t. AreKept self.old.tallies t
            × Follows change.now t) self.old.conn self.new.conn result (λ made t.
            Ascends release_below (applied change.now t).releases
            → (AreKept self.old.tallies t
            → LeadsTo made.step self.new.tallies (applied change.now t))
            × (Follows change.now t → AreFound self.old.found t
            → AreFound made.found (applied change.now t))) }
        ensures fits { IfOk result (λ made. Fits made.step self.new.tallies) }
        ensures tallies { (t : Tables) → AreKept self.old.tallies t → AreKept self.new.tallies t }
        ensures counts { self.new.counts ≡ self.old.counts }
        ensures forms { self.new.forms ≡ self.old.forms }
        ensures left { self.new.found ≡ nothing_kept }
    {
        let known = self.found.take();
        let found = found_after(self.alloc, &mut self.conn, change, known)?;
        let step = self.plan(change)?;
        Ok(Prepared { found, step })
    }

    /// Keeps how many rows there are, and what was found of them.
    fn keep(&mut self, counts: Counts, found: Found)
        ensures counts { self.new.counts ≡ counts }
        ensures found { self.new.found ≡ found }
        ensures conn { self.new.conn ≡ self.old.conn }
        ensures forms { self.new.forms ≡ self.old.forms }
        ensures tallies { self.new.tallies ≡ self.old.tallies }
    {
        self.counts = counts;
        self.found = found;
    }

    /// Writes a change, and keeps what goes with it, except the forms.
    fn write(&mut self, change: &Change) -> Result<(), Fault>
        ensures wrote { OnOk result (Made Stands change.now (⟦<SqlStore<S> as Store>⟧.seen self.old)
            (tallied self.new.found self.new.tallies
            (known_by self.new.counts (forms_after change.now self.old.forms))
            (seen_of (state S.Store self.new.conn)))) }
        ensures failed { OnErr result (Failed Stands change.now
            (⟦<SqlStore<S> as Store>⟧.seen self.old) (⟦<SqlStore<S> as Store>⟧.seen self.new)) }
        ensures forms { self.new.forms ≡ self.old.forms }
        ensures cause { is_writable change.now ≡ true → HasSmallRevision change.now
            → IfErr result (CommitFailsFor change.now (⟦<SqlStore<S> as Store>⟧.seen self.old)
            (state S.Store self.old.conn) (state S.Store self.new.conn)) }
    {
        let Some(counts) = counts_after(change, self.counts) else {
            return Err(Fault::Store(StoreFault::Rows));
        };
        let is_new = self.found.replaces_none(change);
        let Prepared { found, step } = self.prepare(change)?;
        commit_counted(
            self.alloc,
            &mut self.conn,
            change,
            is_new,
            &mut self.tallies,
            step,
        )?;
        self.keep(counts, found);
        Ok(())
    }
}

impl<S: Alter> SqlStore<S> {
    /// Reads all conclusions of a document, and finds the one for a package.
    fn read_conclusion(&mut self, document: u32, id: &str) -> Result<Option<Text>, Fault>
        ensures { Finds ⟦<SqlStore<S> as Store>⟧.seen (λ s. state S.Store s.conn) self.old self.new
            result (λ found t. found ≡ office_text t.conclusion document id.now) }
    {
        let read = desk_sql_lookup::conclusions_in(self.alloc, &mut self.conn, document)?;
        let rows = Appended::from_rows(self.alloc, read)?;
        let expression = expression_in(&rows, document, id)?;
        self.found.last.conclusions = Conclusions::of(document, rows);
        Ok(expression)
    }

    /// Reads all choices of a release, and finds those for a package.
    fn read_chosen(&mut self, key: &ByPackage<'_>) -> Result<Vec<Text>, Fault>
        ensures { Finds ⟦<SqlStore<S> as Store>⟧.seen (λ s. state S.Store s.conn) self.old self.new
            result (λ found t. found.items ≡ map (λ row. row.term) (filter (is_choice_of
            key.now.release.now key.now.document key.now.id.now) t.choice)) }
    {
        let release = Text::of(self.alloc, key.release)?;
        let read = desk_sql_lookup::choices_in(self.alloc, &mut self.conn, key.release)?;
        let rows = Appended::from_rows(self.alloc, read)?;
        let terms = terms_in(self.alloc, &rows, key)?;
        self.found.last.choices = Choices::of(release, rows);
        Ok(terms)
    }
}

fn has_form(forms: &[Text], form: &str) -> bool
    ensures { result ≡ list_any (bytes_eq form.now) forms.now }
{
    forms.iter().any(|known| known.as_str() == form)
}

/// The forms of the catalogue that a change loads.
fn forms_of(change: Change) -> Option<Items<Text>>
    ensures { (old : List (List ℕ)) → unwrap_or result old ≡ forms_after change old }
{
    match change {
        Change::Loaded {
            catalogue: _,
            rules: _,
            forms,
        } => Some(forms),
        _ => None,
    }
}

impl<S: Alter> Store for SqlStore<S> {
    ghost Left = { Trees };

    ghost stands = { Stands };

    ghost seen = { λ s. tallied s.found s.tallies (known_by s.counts s.forms)
        (seen_of (state S.Store s.conn)) };

    ghost tells = { λ fault. Unit {0} };

    ghost may_miss = { Unit {0} };

    fn revision_count(&mut self) -> Result<u64, Fault> {
        Ok(u64::from(self.counts.revisions))
    }

    fn catalogue_text(&mut self, revision: u64) -> Result<Option<Text>, Fault>
        ensures { Finds ⟦<SqlStore<S> as Store>⟧.seen (λ s. state S.Store s.conn) self.old self.new
            result (λ found t. found ≡ revision_text t.catalogue revision) }
    {
        desk_sql_lookup::catalogue_text(self.alloc, &mut self.conn, self.counts.revisions, revision)
    }

    fn has_form(&mut self, form: &str) -> Result<bool, Fault> {
        Ok(has_form(self.forms.as_slice(), form))
    }

    fn rule(&mut self, term: &str, form: &str) -> Result<Option<Rule>, Fault>
        ensures { Finds ⟦<SqlStore<S> as Store>⟧.seen (λ s. state S.Store s.conn) self.old self.new
            result (λ found t. found ≡ rule_for (rules_found t) term.now form.now) }
    {
        if let Some(known) = self.found.last.rule_for(self.alloc, term, form)? {
            return Ok(Some(known));
        }
        let revisions = self.counts.revisions;
        let found = desk_sql_lookup::rule(self.alloc, &mut self.conn, revisions, term, form)?;
        self.found.last.keep_rule(self.alloc, &found)?;
        Ok(found)
    }

    fn document_count(&mut self) -> Result<u64, Fault> {
        Ok(u64::from(self.counts.documents))
    }

    fn import_of(&mut self, namespace: &str, bytes: &[u8]) -> Result<Option<(u32, bool)>, Fault>
        ensures { Finds ⟦<SqlStore<S> as Store>⟧.seen (λ s. state S.Store s.conn) self.old self.new
            result (λ found t. found ≡ option_map (known_import bytes.now) (find (has_namespace
            namespace.now) t.document)) }
    {
        desk_sql_lookup::import_of(&mut self.conn, namespace, bytes)
    }

    fn document(&mut self, number: u64) -> Result<Option<(u32, Profile)>, Fault>
        ensures looks { Finds ⟦<SqlStore<S> as Store>⟧.seen (λ s. state S.Store s.conn) self.old
            self.new result (λ found t. found ≡ option_map known_document (find (is_document number)
            t.document)) }
        ensures same { IfOk result (λ found. IfSome found (λ known. known.0 ≡ number)) }
    {
        if let Some(known) = self.found.last.document_at(number) {
            return Ok(Some(known));
        }
        let documents = self.counts.documents;
        let found = desk_sql_lookup::document(self.alloc, &mut self.conn, documents, number)?;
        self.found.last.keep_document(number, found);
        Ok(found)
    }

    fn documents(&mut self) -> Result<Vec<DocumentHead>, Fault>
        ensures { Finds ⟦<SqlStore<S> as Store>⟧.seen (λ s. state S.Store s.conn) self.old self.new
            result (λ found t. found.items ≡ map head_of t.document) }
    {
        desk_sql_lookup::document_heads(self.alloc, &mut self.conn)
    }

    fn document_source(&mut self, number: u64) -> Result<Option<(Items<u8>, Profile)>, Fault>
        ensures { Finds ⟦<SqlStore<S> as Store>⟧.seen (λ s. state S.Store s.conn) self.old self.new
            result (λ found t. found ≡ option_map source_of (find (is_document number)
            t.document)) }
    {
        desk_sql_lookup::document_source(self.alloc, &mut self.conn, self.counts.documents, number)
    }

    fn package_row(&mut self, document: u64, id: &str) -> Result<Option<PackageRow>, Fault>
        ensures { Finds ⟦<SqlStore<S> as Store>⟧.seen (λ s. state S.Store s.conn) self.old self.new
            result (λ found t. found ≡ find (is_package document id.now) t.packages) }
    {
        let documents = self.counts.documents;
        desk_sql_lookup::package_row(self.alloc, &mut self.conn, documents, document, id)
    }

    fn shipped(&mut self, document: u32) -> Result<Vec<PackageRow>, Fault>
        ensures { Finds ⟦<SqlStore<S> as Store>⟧.seen (λ s. state S.Store s.conn) self.old self.new
            result (λ found t. found.items ≡ filter (is_shipped_by document) t.packages) }
    {
        desk_sql_lookup::shipped(self.alloc, &mut self.conn, document)
    }

    fn extracted_text(&mut self, document: u32, reference: &str) -> Result<Option<Text>, Fault>
        ensures { Finds ⟦<SqlStore<S> as Store>⟧.seen (λ s. state S.Store s.conn) self.old self.new
            result (λ found t. found ≡ extracted_text t.extracted document reference.now) }
    {
        desk_sql_lookup::extracted_text(self.alloc, &mut self.conn, document, reference)
    }

    fn release(&mut self, name: &str) -> Result<Option<ReleaseRow>, Fault>
        ensures { Finds ⟦<SqlStore<S> as Store>⟧.seen (λ s. state S.Store s.conn) self.old self.new
            result (λ found t. found ≡ release_found t name.now) }
    {
        desk_sql_lookup::release(self.alloc, &mut self.conn, name)
    }

    fn releases(&mut self) -> Result<Vec<ReleaseRow>, Fault>
        ensures { Finds ⟦<SqlStore<S> as Store>⟧.seen (λ s. state S.Store s.conn) self.old self.new
            result (λ found t. found.items ≡ t.releases) }
    {
        desk_sql_lookup::release_rows(self.alloc, &mut self.conn)
    }

    fn release_count(&mut self) -> Result<u64, Fault> {
        Ok(u64::from(self.counts.releases))
    }

    fn attached(&mut self, release: &str) -> Result<Vec<AttachedRow>, Fault>
        ensures { Finds ⟦<SqlStore<S> as Store>⟧.seen (λ s. state S.Store s.conn) self.old self.new
            result (λ found t. found.items ≡ attached_to t.attached release.now) }
    {
        desk_sql_lookup::attached(self.alloc, &mut self.conn, release)
    }

    fn is_attached(&mut self, release: &str, document: u64) -> Result<bool, Fault>
        ensures { Finds ⟦<SqlStore<S> as Store>⟧.seen (λ s. state S.Store s.conn) self.old self.new
            result (λ is t. is ≡ list_any (is_attachment release.now document) t.attached) }
    {
        desk_sql_lookup::is_attached(self.alloc, &mut self.conn, release, document)
    }

    fn attached_count(&mut self, release: &str) -> Result<u64, Fault>
        ensures { Finds ⟦<SqlStore<S> as Store>⟧.seen (λ s. state S.Store s.conn) self.old self.new
            result (λ n t. n ≡ length (attached_to t.attached release.now)) }
    {
        desk_sql_lookup::attached_count(&mut self.conn, release)
    }

    fn chosen(&mut self, release: &str, document: u32, id: &str) -> Result<Vec<Text>, Fault>
        ensures { Finds ⟦<SqlStore<S> as Store>⟧.seen (λ s. state S.Store s.conn) self.old self.new
            result (λ found t. found.items ≡ map (λ row. row.term) (filter (is_choice_of release.now
            document id.now) t.choice)) }
    {
        let key = ByPackage {
            release,
            document,
            id,
        };
        if self.found.last.choices.ask(self.alloc, release)? {
            return self.read_chosen(&key);
        }
        match self.found.last.choices.rows_of(release) {
            Some(rows) => Ok(terms_in(self.alloc, rows, &key)?),
            None => desk_sql_lookup::chosen(self.alloc, &mut self.conn, release, document, id),
        }
    }

    fn frozen(&mut self, release: &str) -> Result<Vec<FrozenRow>, Fault>
        ensures { Finds ⟦<SqlStore<S> as Store>⟧.seen (λ s. state S.Store s.conn) self.old self.new
            result (λ found t. found.items ≡ filter (λ row. bytes_eq row.release release.now)
            t.frozen) }
    {
        desk_sql_lookup::frozen(self.alloc, &mut self.conn, release)
    }

    fn conclusion(&mut self, document: u32, id: &str) -> Result<Option<Text>, Fault>
        ensures { Finds ⟦<SqlStore<S> as Store>⟧.seen (λ s. state S.Store s.conn) self.old self.new
            result (λ found t. found ≡ office_text t.conclusion document id.now) }
    {
        if self.found.last.conclusions.ask(document) {
            return self.read_conclusion(document, id);
        }
        match self.found.last.conclusions.rows_of(document) {
            Some(rows) => Ok(expression_in(rows, document, id)?),
            None => desk_sql_lookup::conclusion(self.alloc, &mut self.conn, document, id),
        }
    }

    fn holder(&mut self, document: u32, id: &str) -> Result<Option<Text>, Fault>
        ensures { FindsIf (λ t. have_releases t.releases t.choice ≡ true)
            ⟦<SqlStore<S> as Store>⟧.seen (λ s. state S.Store s.conn) self.old self.new result
            (λ found t. found ≡ holder_found t document id.now) }
    {
        if let Some(holders) = &self.found.holders {
            return Ok(holders.first(document, id)?);
        }
        let Some(holders) = read_holders(self.alloc, &mut self.conn)? else {
            return Err(Fault::Store(StoreFault::Rows));
        };
        let release = holders.first(document, id)?;
        self.found.holders = Some(holders);
        Ok(release)
    }

    fn adoption(&mut self, document: u32, reference: &str) -> Result<Option<Text>, Fault>
        ensures { Finds ⟦<SqlStore<S> as Store>⟧.seen (λ s. state S.Store s.conn) self.old self.new
            result (λ found t. found ≡ licence_for t.adoption document reference.now) }
    {
        if let Some(kept) = &self.found.adoptions
            && kept.lacks(document, reference)
        {
            return Ok(None);
        }
        desk_sql_lookup::adoption(self.alloc, &mut self.conn, document, reference)
    }

    fn adoption_count(&mut self, document: u32) -> Result<u64, Fault>
        ensures { Finds ⟦<SqlStore<S> as Store>⟧.seen (λ s. state S.Store s.conn) self.old self.new
            result (λ n t. n ≡ adoption_count t document) }
    {
        if let Some(kept) = &self.found.adoptions
            && kept.document == document
        {
            return Ok(kept.count);
        }
        let kept = read_adoptions(self.alloc, &mut self.conn, document)?;
        let count = kept.count;
        self.found.adoptions = Some(kept);
        Ok(count)
    }

    fn duty(&mut self, number: u64) -> Result<Option<DutyRow>, Fault>
        ensures looks { Finds ⟦<SqlStore<S> as Store>⟧.seen (λ s. state S.Store s.conn) self.old
            self.new result (λ found t. found ≡ duty_found t number) }
        ensures same { IfOk result (λ found. IfSome found (λ row. row.number ≡ number)) }
    {
        desk_sql_lookup::duty(self.alloc, &mut self.conn, self.counts.duties, number)
    }

    fn duty_count(&mut self) -> Result<u64, Fault> {
        Ok(u64::from(self.counts.duties))
    }

    fn duties_of(&mut self, release: &str) -> Result<Vec<DutyRow>, Fault>
        ensures { Finds ⟦<SqlStore<S> as Store>⟧.seen (λ s. state S.Store s.conn) self.old self.new
            result (λ found t. found.items ≡ filter (is_duty_of release.now) t.duty) }
    {
        desk_sql_lookup::duties_of(self.alloc, &mut self.conn, release)
    }

    fn tally(&mut self, release: &str) -> Result<Option<Totals>, Fault>
        ensures { Finds ⟦<SqlStore<S> as Store>⟧.seen (λ s. state S.Store s.conn) self.old self.new
            result (λ found t. found ≡ option_map (λ row. totals_of (filter (is_duty_of release.now)
            t.duty)) (release_found t release.now)) }
    {
        match desk_sql_lookup::release(self.alloc, &mut self.conn, release)? {
            Some(row) => Ok(self.tallies.totals(row.place)),
            None => Ok(None),
        }
    }

    fn standings_of(&mut self, release: &str) -> Result<Vec<Standing>, Fault>
        ensures { Finds ⟦<SqlStore<S> as Store>⟧.seen (λ s. state S.Store s.conn) self.old self.new
            result (λ found t. found.items ≡ standings_found t release.now) }
    {
        desk_sql_lookup::standings_of(self.alloc, &mut self.conn, self.counts.duties, release)
    }

    fn ended(&mut self, day: Day) -> Result<Vec<Standing>, Fault>
        ensures { Finds ⟦<SqlStore<S> as Store>⟧.seen (λ s. state S.Store s.conn) self.old self.new
            result (λ found t. found.items ≡ ended_found t day) }
    {
        desk_sql_lookup::ended(self.alloc, &mut self.conn, self.counts.duties, day)
    }

    fn steps(&mut self, duty: u64) -> Result<u64, Fault>
        ensures { Finds ⟦<SqlStore<S> as Store>⟧.seen (λ s. state S.Store s.conn) self.old self.new
            result (λ n t. n ≡ steps_found t duty) }
    {
        desk_sql_lookup::steps(&mut self.conn, self.counts.duties, duty)
    }

    fn changes_of(&mut self, duty: u64) -> Result<Vec<ChangeRow>, Fault>
        ensures { Finds ⟦<SqlStore<S> as Store>⟧.seen (λ s. state S.Store s.conn) self.old self.new
            result (λ found t. found.items ≡ filter (is_change_of duty) t.changes) }
    {
        desk_sql_lookup::changes_of(self.alloc, &mut self.conn, self.counts.duties, duty)
    }

    fn last_day(&mut self, duty: u32) -> Result<Option<Day>, Fault>
        ensures { Finds ⟦<SqlStore<S> as Store>⟧.seen (λ s. state S.Store s.conn) self.old self.new
            result (λ day t. day ≡ last_day (filter (is_change_of duty) t.changes)) }
    {
        desk_sql_lookup::last_day(&mut self.conn, duty)
    }

    fn commit(&mut self, change: Change) -> Result<(), Fault>
        ensures wrote { Wrote Stands change (⟦<SqlStore<S> as Store>⟧.seen self.old)
            (⟦<SqlStore<S> as Store>⟧.seen self.new) result }
        ensures cause { is_writable change ≡ true → HasSmallRevision change → IfErr result
            (CommitFailsFor change (⟦<SqlStore<S> as Store>⟧.seen self.old)
            (state S.Store self.old.conn) (state S.Store self.new.conn)) }
    {
        let written = self.write(&change);
        self.take_forms(change, written.is_ok());
        written
    }
}
