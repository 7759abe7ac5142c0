//! What becomes of a sole choice. Each law is the contract of a function that does nothing.

ghost use Rattle.std.specs.Prelude.{◌≡◌, ℕ, List, Ok};
ghost use Rattle.desk_model.specs.Answers.{answer, IsHistory};
ghost use Rattle.desk_model.specs.Lists.{IsIn};
ghost use Rattle.desk_model.specs.Readings.{Readings};
ghost use Rattle.desk_model.specs.Tables.{tables, Tables};
ghost use Rattle.desk_model.specs.declared.command.Answer.TheVariants.{Done};
ghost use Rattle.desk_model.specs.declared.command.Command.{Command};
ghost use Rattle.desk_model.specs.declared.command.Command.TheVariants.{Choose};
ghost use Rattle.desk_history.specs.FromTables.{answer_from};
ghost use Rattle.desk_history.specs.Laws.{ListsInOrder};
ghost use Rattle.desk_wanting.specs.Premises.{FindsPackages, ListsMinimalSets};
ghost use Rattle.desk_wanting.specs.Sole.{sole_choices_found};
ghost use Rattle.desk_wanting.specs.declared.sole_choice.SoleChoice.{SoleChoice};

/// For tables that find their packages, and a reading that lists minimal sets, each sole choice is
/// accepted: if a Choose of it comes next, it is carried out.
pub fn sole_choices_are_accepted()
    ensures { (w : Readings) (t : Tables) (r : List ℕ) (choices : List SoleChoice) (c : SoleChoice)
        → ListsMinimalSets w → FindsPackages t
        → sole_choices_found w t r ≡ Ok choices → IsIn c choices
        → answer_from w t (Choose r c.document c.package_id c.terms) ≡ Done }
{}

/// The same after any recorded commands, if the reading lists the packages of a document by id,
/// each once: their tables find their packages (`found`), and if a Choose of a sole choice comes
/// next, it is carried out (`accepted`).
pub fn recorded_sole_choices_are_accepted()
    ensures found { (w : Readings) (h : List Command)
        → ListsInOrder w → IsHistory w h → FindsPackages (tables w h) }
    ensures accepted { (w : Readings) (h : List Command) (r : List ℕ)
        (choices : List SoleChoice) (c : SoleChoice)
        → ListsMinimalSets w → ListsInOrder w → IsHistory w h
        → sole_choices_found w (tables w h) r ≡ Ok choices → IsIn c choices
        → answer w h (Choose r c.document c.package_id c.terms) ≡ Done }
{
    desk_history::listed_tables_are_sorted();
}
