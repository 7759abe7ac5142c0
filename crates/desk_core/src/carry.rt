//! Carrying out a command over a store: it is decided, and then written.

ghost use Rattle.std.specs.Prelude.{◌≡◌, IfOk, IfErr, false};
ghost use Rattle.desk_model.specs.Readings.{Readings};
ghost use Rattle.desk_model.specs.Faults.{MayFail};
ghost use Rattle.desk_model.specs.Answers.{refused_alone};
ghost use Rattle.desk_access.specs.Seen.{OfRows, Minds};
ghost use Rattle.desk_access.specs.Plans.{IsPlanOf, Plans, Carries, SparesStore};
ghost use Rattle.desk_core.specs.Carrying.{CarriesOutFrom};
ghost use Rattle.desk_model.specs.declared.command.Command.TheVariants.{Import};

use desk_access::store::Store;
use desk_access::texts::Texts;
use desk_base::Items;
use desk_duties::duty::{meet, reopen, waive};
use desk_duties::freeze::freeze;
use desk_duties::withdraw::{close_day, withdraw};
use desk_model::{Answer, Command, Fault, Plan, Profile};
use desk_preparing::catalogue::load_catalogue;
use desk_preparing::choice::{choose, unchoose};
use desk_preparing::conclusion::{adopt, conclude};
use desk_preparing::document::{import, import_copy};
use desk_preparing::release::{attach, open_release};
use std::alloc::Global;

/// What a command amounts to over the rows of a store.
pub fn plan<T: Texts, S: Store>(
    alloc: Global,
    texts: &T,
    store: &mut S,
    command: &Command,
) -> Result<Plan, Fault>
    ensures plan { (w : Readings) → T.are_right w → IfOk result (λ plan.
        OfRows (IsPlanOf w command.now plan) (S.seen store.old) (S.seen store.new)) }
    ensures kept { Plans (S.seen store.old) (S.seen store.new) result }
    ensures alone { (w : Readings) → T.are_right w
        → SparesStore (refused_alone w command.now) result }
    ensures fault { IfErr result (MayFail S.tells) }
{
    match command {
        Command::LoadCatalogue { text } => load_catalogue(alloc, texts, store, text),
        Command::Import { bytes, profile } => import_copy(alloc, texts, store, bytes, *profile),
        Command::OpenRelease { release, form } => open_release(store, release, form),
        Command::Attach { release, document } => attach(store, release, *document),
        Command::Choose {
            release,
            document,
            package_id,
            terms,
        } => choose(alloc, texts, store, release, *document, package_id, terms),
        Command::Freeze { release, day } => freeze(alloc, texts, store, release, day),
        Command::Unchoose {
            release,
            document,
            package_id,
        } => unchoose(alloc, store, release, *document, package_id),
        Command::Meet { duty, day, text } => meet(alloc, store, *duty, day, text),
        Command::Waive {
            duty,
            day,
            text,
            until,
        } => waive(alloc, store, *duty, day, text, until),
        Command::Reopen { duty, day, text } => reopen(alloc, store, *duty, day, text),
        Command::Withdraw { release, day, text } => withdraw(alloc, store, release, day, text),
        Command::CloseDay { day } => close_day(alloc, store, day),
        Command::Conclude {
            document,
            package_id,
            expression,
        } => conclude(alloc, texts, store, *document, package_id, expression),
        Command::Adopt {
            document,
            reference,
            licence,
        } => adopt(alloc, texts, store, *document, reference, licence),
    }
}

/// Carries out a plan: writes its change, if it has one, and returns its answer.
fn carry_plan<S: Store>(store: &mut S, plan: Plan) -> Result<Answer, Fault>
    ensures carries { Carries S.stands plan (S.seen store.old) (S.seen store.new) result }
    ensures fault { IfErr result (MayFail S.tells) }
{
    match plan {
        Plan::Leave(answer) => Ok(answer),
        Plan::Make { answer, change } => {
            store.commit(change)?;
            Ok(answer)
        }
    }
}

/// Carries out a command.
pub fn carry_out<T: Texts, S: Store>(
    alloc: Global,
    texts: &T,
    store: &mut S,
    command: &Command,
) -> Result<Answer, Fault>
    ensures minds { Minds (S.seen store.old) (S.seen store.new) result }
    ensures decides { (w : Readings) → T.are_right w
        → CarriesOutFrom S.stands w command.now (S.seen store.old) (S.seen store.new) result }
    ensures alone { (w : Readings) → T.are_right w
        → IfErr result (MayFail (λ fault. refused_alone w command.now ≡ false)) }
    ensures fault { IfErr result (MayFail S.tells) }
{
    let decided = plan(alloc, texts, store, command)?;
    carry_plan(store, decided)
}

/// Carries out the import of these bytes, which are themselves kept rather than a copy.
pub fn carry_import<T: Texts, S: Store>(
    alloc: Global,
    texts: &T,
    store: &mut S,
    bytes: Items<u8>,
    profile: Profile,
) -> Result<Answer, Fault>
    ensures minds { Minds (S.seen store.old) (S.seen store.new) result }
    ensures decides { (w : Readings) → T.are_right w
        → CarriesOutFrom S.stands w (Import bytes profile) (S.seen store.old) (S.seen store.new)
        result }
    ensures alone { (w : Readings) → T.are_right w
        → IfErr result (MayFail (λ fault. refused_alone w (Import bytes profile) ≡ false)) }
    ensures fault { IfErr result (MayFail S.tells) }
{
    let decided = import(alloc, texts, store, bytes, profile)?;
    carry_plan(store, decided)
}
