//! What can be looked at in a desk besides its answers: all its rows, what keeps a release from
//! being frozen, and the choices for packages that have only one.

ghost use Rattle.std.specs.Prelude.{◌≡◌, IfErr, IfOk};
ghost use Rattle.std.specs.Result.{result_map_both};
ghost use Rattle.sqlite.specs.Held.{state};
ghost use Rattle.desk_model.specs.Tables.{tables};
ghost use Rattle.desk_access.specs.Seen.{Looked};
ghost use Rattle.desk_core.specs.Desks.{InHistory};
ghost use Rattle.desk_snapshot.specs.Tables.{snapshot_of};
ghost use Rattle.desk_store.specs.Causes.{MissesIf};
ghost use Rattle.desk_texts.specs.Right.{AreRight};
ghost use Rattle.desk_wanting.specs.Sole.{sole_choices_found};
ghost use Rattle.desk_wanting.specs.Idle.{idle_found};
ghost use Rattle.desk_wanting.specs.Obstacles.{wanting_found};

use crate::desk::SqlDesk;
use desk_base::Text;
use desk_core::{Desk, Fault};
use desk_model::Refusal;
use desk_snapshot::Snapshot;
use desk_texts::Standard;
use desk_wanting::SoleChoice;
use sqlite::Alter;
use std::alloc::Global;

impl<S: Alter> SqlDesk<S> {
    /// All rows of the desk's tables, each table in the order of its key. The desk is as it was.
    pub fn snapshot(&mut self) -> Result<Snapshot, Fault>
        ensures found { IfOk result (λ snapshot. InHistory AreRight (λ w h.
            snapshot ≡ snapshot_of (tables w h)) (⟦<SqlDesk<S> as Desk>⟧.seen self.old)
            (⟦<SqlDesk<S> as Desk>⟧.seen self.new)) }
        ensures kept { Looked (⟦<SqlDesk<S> as Desk>⟧.seen self.old)
            (⟦<SqlDesk<S> as Desk>⟧.seen self.new) result }
        ensures cause { IfErr result (MissesIf (λ t. Unit {0})
            (⟦<SqlDesk<S> as Desk>⟧.seen self.old) (state S.Store self.old.desk.store.conn)
            (state S.Store self.new.desk.store.conn)) }
    {
        self.desk.store.snapshot()
    }

    /// Everything that keeps a release from being frozen, as `desk_wanting::wanting` lists it. The
    /// desk is as it was.
    pub fn wanting(&mut self, alloc: Global, release: &Text) -> Result<Vec<Refusal>, Fault>
        ensures found { IfOk result (λ refusals. InHistory AreRight (λ w h.
            refusals.items ≡ wanting_found w (tables w h) release.now)
            (⟦<SqlDesk<S> as Desk>⟧.seen self.old)
            (⟦<SqlDesk<S> as Desk>⟧.seen self.new)) }
        ensures kept { Looked (⟦<SqlDesk<S> as Desk>⟧.seen self.old)
            (⟦<SqlDesk<S> as Desk>⟧.seen self.new) result }
    {
        desk_wanting::wanting(alloc, &Standard, &mut self.desk.store, release)
    }

    /// The choices of a release for packages that have only one, as `desk_wanting::sole_choices`
    /// lists them. The desk is as it was.
    pub fn sole_choices(
        &mut self,
        alloc: Global,
        release: &Text,
    ) -> Result<Result<Vec<SoleChoice>, Refusal>, Fault>
        ensures found { IfOk result (λ found. InHistory AreRight (λ w h.
            result_map_both (λ choices. choices.items) (λ refusal. refusal) found
            ≡ sole_choices_found w (tables w h) release.now) (⟦<SqlDesk<S> as Desk>⟧.seen self.old)
            (⟦<SqlDesk<S> as Desk>⟧.seen self.new)) }
        ensures kept { Looked (⟦<SqlDesk<S> as Desk>⟧.seen self.old)
            (⟦<SqlDesk<S> as Desk>⟧.seen self.new) result }
    {
        desk_wanting::sole_choices(alloc, &Standard, &mut self.desk.store, release)
    }

    /// The documents of a release that ship no package, as `desk_wanting::idle_documents` lists
    /// them. The desk is as it was.
    pub fn idle_documents(&mut self, alloc: Global, release: &Text) -> Result<Vec<u32>, Fault>
        ensures found { IfOk result (λ numbers. InHistory AreRight (λ w h.
            numbers.items ≡ idle_found (tables w h) release.now)
            (⟦<SqlDesk<S> as Desk>⟧.seen self.old)
            (⟦<SqlDesk<S> as Desk>⟧.seen self.new)) }
        ensures kept { Looked (⟦<SqlDesk<S> as Desk>⟧.seen self.old)
            (⟦<SqlDesk<S> as Desk>⟧.seen self.new) result }
    {
        desk_wanting::idle_documents(alloc, &mut self.desk.store, release)
    }
}
