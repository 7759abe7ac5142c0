//! A desk, and a run of commands over it.

ghost use Rattle.std.specs.Prelude.{◌≡◌, true, false, List, [], IfOk, IfErr, OnErr, length};
ghost use Rattle.std.specs.List.{list_all, list_any};
ghost use Rattle.desk_model.specs.Readings.{Readings};
ghost use Rattle.desk_model.specs.Faults.{MayFail, MayBecome, MayAllBecome};
ghost use Rattle.desk_model.specs.Tables.{Tables, tables};
ghost use Rattle.desk_model.specs.Answers.{IsHistory, refused_alone};
ghost use Rattle.desk_model.specs.Queries.{queried};
ghost use Rattle.desk_model.specs.Runs.{AreAnswers, IsAnswer, history_after, history_with, is_kept};
ghost use Rattle.desk_access.specs.Seen.{Seen, Looked, Minds, Outlasts, Spared};
ghost use Rattle.desk_core.specs.Desks.{AllSpareStore, CarriesOut, InHistory, IsLeft, Secures, is_answered};
ghost use Rattle.desk_memory.specs.Memory.{memory_seen};
ghost use Rattle.desk_model.specs.declared.command.Command.TheVariants.{Import};
ghost use Rattle.desk_model.specs.declared.command.StoreFault.{StoreFault};

use crate::carry::{carry_import, carry_out};
use desk_access::store::Store;
use desk_access::texts::Texts;
use desk_base::Items;
use desk_memory::MemStore;
use desk_model::{Answer, Command, Fault, Outcome, Profile, Query};
use desk_questions::ask::answer_to;
use std::alloc::{AllocError, Global};

/// A desk. What contracts see of it is what they see of its store: which tables are its rows, and
/// what a stop could leave of them.
///
/// For each right reading of texts and each recorded history whose tables are the rows, a command
/// is answered as the definitions of the history say, and leaves the tables of the history with it.
/// After a refusal, Again, a question or a fault the rows are unchanged, whatever they are.
pub trait Desk {
    /// What a stop of the program may leave of a desk.
    ghost Left: { Type 0 };

    /// What is left after a stop holds these rows.
    ghost stands: { Left → Tables → Type 0 };

    /// What contracts see of the desk.
    ghost seen: { Self → Seen Left };

    /// The readings that say of each text what it says.
    ghost are_right: { Readings → Type 0 };

    /// The faults that are the store's own and that it may return.
    ghost tells: { StoreFault → Type 0 };

    /// Carries out a command, or refuses it.
    fn apply(&mut self, command: &Command) -> Result<Answer, Fault>
        ensures minds { Minds (seen self.old) (seen self.new) result }
        ensures carries { (w : Readings) → are_right w
            → CarriesOut stands w command.now (seen self.old) (seen self.new) result }
        ensures alone { (w : Readings) → are_right w
            → IfErr result (MayFail (λ fault. refused_alone w command.now ≡ false)) }
        ensures fault { IfErr result (MayFail tells) };

    /// Carries out the import of these bytes as `apply` does; a desk may keep the bytes themselves,
    /// while `apply` keeps a copy.
    fn import(&mut self, bytes: Items<u8>, profile: Profile) -> Result<Answer, Fault>
        ensures minds { Minds (seen self.old) (seen self.new) result }
        ensures carries { (w : Readings) → are_right w
            → CarriesOut stands w (Import bytes profile) (seen self.old) (seen self.new) result }
        ensures alone { (w : Readings) → are_right w
            → IfErr result (MayFail (λ fault. refused_alone w (Import bytes profile) ≡ false)) }
        ensures fault { IfErr result (MayFail tells) }
    {
        let command = Command::Import { bytes, profile };
        self.apply(&command)
    }

    /// Answers a question, and changes nothing.
    fn ask(&mut self, query: &Query) -> Result<Answer, Fault>
        ensures answer { IfOk result (λ a.
            InHistory are_right (λ w h. a ≡ queried w h query.now) (seen self.old)
            (seen self.new)) }
        ensures kept { Looked (seen self.old) (seen self.new) result }
        ensures fault { IfErr result (MayFail tells) };
}

/// A desk over a store of rows, with a reader of texts.
#[derive(Drop)]
pub struct TableDesk<T, S> {
    texts: T,
    /// Its rows.
    pub store: S,
    alloc: Global,
}

impl<T, S> TableDesk<T, S> {
    /// The desk over this store.
    pub fn over(alloc: Global, texts: T, store: S) -> TableDesk<T, S>
        ensures { result.store ≡ store }
    {
        TableDesk {
            texts,
            store,
            alloc,
        }
    }
}

impl<T: Drop, S> TableDesk<T, S> {
    /// Returns the store.
    pub fn into_store(self) -> S
        ensures { result ≡ self.store }
    {
        let TableDesk {
            texts: _,
            store,
            alloc: _,
        } = self;
        store
    }
}

impl<T: Texts> TableDesk<T, MemStore> {
    /// The empty desk in memory.
    pub fn new(alloc: Global, texts: T) -> TableDesk<T, MemStore>
        ensures { (w : Readings) → (memory_seen result.store).holds (tables w []) }
    {
        TableDesk {
            texts,
            store: MemStore::new(alloc),
            alloc,
        }
    }
}

impl<T: Texts, S: Store> Desk for TableDesk<T, S> {
    ghost Left = { S.Left };

    ghost stands = { S.stands };

    ghost seen = { λ d. S.seen d.store };

    ghost are_right = { T.are_right };

    ghost tells = { S.tells };

    fn apply(&mut self, command: &Command) -> Result<Answer, Fault> {
        carry_out(self.alloc, &self.texts, &mut self.store, command)
    }

    fn import(&mut self, bytes: Items<u8>, profile: Profile) -> Result<Answer, Fault> {
        carry_import(self.alloc, &self.texts, &mut self.store, bytes, profile)
    }

    fn ask(&mut self, query: &Query) -> Result<Answer, Fault> {
        answer_to(self.alloc, &self.texts, &mut self.store, query)
    }
}

/// Applies one command.
fn apply_one<D: Desk>(desk: &mut D, command: &Command) -> Outcome
    ensures honest { (D.seen desk.new).is_honest → (D.seen desk.old).is_honest }
    ensures answer { InHistory D.are_right (λ w h. IsAnswer w h command.now result)
        (D.seen desk.old) (D.seen desk.new) }
    ensures content { InHistory D.are_right
        (λ w h. (D.seen desk.new).holds (tables w (history_with h command.now result)))
        (D.seen desk.old) (D.seen desk.new) }
    ensures keeps { is_kept result ≡ false → Spared (D.seen desk.old) (D.seen desk.new) }
    ensures outlasts { Outlasts (D.seen desk.old) (D.seen desk.new) }
    ensures stays { is_answered result ≡ true → InHistory D.are_right
        (λ w h. (D.seen desk.old).is_open → (D.seen desk.new).is_open)
        (D.seen desk.old) (D.seen desk.new) }
    ensures left { InHistory D.are_right (λ w h. (x : D.Left) → (D.seen desk.new).leaves x
        → IsLeft D.stands w h (D.seen desk.old) command.now result x)
        (D.seen desk.old) (D.seen desk.new) }
    ensures alone { (w : Readings) → D.are_right w
        → MayBecome (λ fault. refused_alone w command.now ≡ false) result }
    ensures fault { MayBecome D.tells result }
{
    Outcome::from(desk.apply(command))
}

/// Applies commands in order, and continues after refusals and faults.
///
/// Room for the list of outcomes is reserved first: if that fails, nothing is applied. Otherwise
/// there is one outcome for each command. For any recorded history `h` whose tables are the rows
/// before the run, each outcome that isn't a fault is the answer at its place, after `h` and the
/// commands recorded before it; and at the end the rows are the tables of all recorded commands,
/// which again form a recorded history. If none was recorded, the rows are unchanged, whatever they
/// are. If no outcome is a fault and a stop before the run would have left its rows and no others,
/// a stop after it leaves those at the end and no others. A desk that showed its rows still does,
/// unless its disk failed. An outcome is a fault only if `apply` returned it: it is one that the
/// desk may return, and not one of the store if the command itself decides its refusal.
pub fn run<D: Desk>(
    alloc: Global,
    desk: &mut D,
    commands: &[Command],
) -> Result<Vec<Outcome>, AllocError>
    ensures answers { IfOk result (λ outcomes.
        InHistory D.are_right (λ w h. AreAnswers w h commands.now outcomes.items)
        (D.seen desk.old) (D.seen desk.new)) }
    ensures history { IfOk result (λ outcomes.
        InHistory D.are_right (λ w h. IsHistory w (history_after h commands.now outcomes.items))
        (D.seen desk.old) (D.seen desk.new)) }
    ensures content { IfOk result (λ outcomes.
        InHistory D.are_right
        (λ w h. (D.seen desk.new).holds (tables w (history_after h commands.now outcomes.items)))
        (D.seen desk.old) (D.seen desk.new)) }
    ensures keeps { IfOk result (λ outcomes. list_any is_kept outcomes.items ≡ false
        → Spared (D.seen desk.old) (D.seen desk.new)) }
    ensures secures { IfOk result (λ outcomes. list_all is_answered outcomes.items ≡ true
        → InHistory D.are_right (λ w h. Secures D.stands (tables w h) (D.seen desk.old)
        → Secures D.stands (tables w (history_after h commands.now outcomes.items))
        (D.seen desk.new))
        (D.seen desk.old) (D.seen desk.new)) }
    ensures honest { (D.seen desk.new).is_honest → (D.seen desk.old).is_honest }
    ensures outlasts { Outlasts (D.seen desk.old) (D.seen desk.new) }
    ensures alone { (w : Readings) → D.are_right w
        → IfOk result (λ outcomes. AllSpareStore w commands.now outcomes.items) }
    ensures faults { IfOk result (λ outcomes. MayAllBecome D.tells outcomes.items) }
    ensures count { IfOk result (λ outcomes. length outcomes.items ≡ length commands.now) }
    ensures err { OnErr result (desk.new ≡ desk.old) }
{
    let mut outcomes = Vec::with_capacity(alloc, commands.len())?;
    for command in commands {
        outcomes.push_reserved(apply_one(desk, command));
    }
    Ok(outcomes)
}

/// A desk in memory.
pub type MemDesk<T> = TableDesk<T, MemStore>;

/// Applies commands to an empty desk in memory, whose only fault is that no memory is left.
pub fn run_in_memory<T: Texts + Drop>(
    alloc: Global,
    texts: T,
    commands: &[Command],
) -> Result<(Vec<Outcome>, MemDesk<T>), AllocError>
    ensures answers { (w : Readings) → T.are_right w
        → IfOk result (λ done. AreAnswers w [] commands.now done.0.items) }
    ensures history { (w : Readings) → T.are_right w
        → IfOk result (λ done. IsHistory w (history_after [] commands.now done.0.items)) }
    ensures content { (w : Readings) → T.are_right w → IfOk result (λ done.
        (⟦<TableDesk<T, MemStore> as Desk>⟧.seen done.1).holds
        (tables w (history_after [] commands.now done.0.items))) }
    ensures faults { IfOk result (λ done. MayAllBecome (λ _. ⊥) done.0.items) }
    ensures count { IfOk result (λ done. length done.0.items ≡ length commands.now) }
{
    let mut desk = TableDesk::new(alloc, texts);
    let outcomes = run(alloc, &mut desk, commands)?;
    Ok((outcomes, desk))
}
