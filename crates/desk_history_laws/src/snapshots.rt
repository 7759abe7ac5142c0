//! Laws of the tables of a recorded history as a snapshot, each the contract of a function with an
//! empty body: by any reading of texts, revisions and documents are numbered and can be read, rules
//! and packages are theirs, and duties are numbered and in states that suit their releases. These
//! are seven of the ten conditions of an audit (`desk_snapshot`); the laws of `duty_rows` are two
//! more, and that of `choice_rows` is the last.

pub mod choice_rows;
pub mod duty_rows;

ghost use Rattle.std.specs.Prelude.{List};
ghost use Rattle.desk_model.specs.Answers.{IsHistory};
ghost use Rattle.desk_model.specs.Readings.{Readings};
ghost use Rattle.desk_model.specs.Tables.{tables};
ghost use Rattle.desk_model.specs.declared.command.Command.{Command};
ghost use Rattle.desk_snapshot.specs.Conditions.{AreDocuments, AreNumbered, ArePackages, AreRevisions, AreRules, AreStates, HasVersion};
ghost use Rattle.desk_snapshot.specs.Tables.{snapshot_of};

/// The tables of each history have one row of `meta`, with version 3. A snapshot without the
/// version, or with another one, would not meet this.
pub fn versions_are_told()
    ensures { (w : Readings) (h : List Command) → HasVersion (snapshot_of (tables w h)) }
{}

/// The revisions of a recorded history are numbered from 1, and the body of each is a catalogue: a
/// text that isn't one is refused and leaves no revision. Revisions that count refused loads, or
/// start at 0, would not meet this.
pub fn revisions_are_numbered_catalogues()
    ensures { (w : Readings) (h : List Command) → IsHistory w h
        → AreRevisions w (snapshot_of (tables w h)) }
{}

/// The rules of each revision are those of its body, in the order of the body, and there are no
/// others. Rules of only the catalogue in force, or of one revision under the number of another,
/// would not meet this.
pub fn rules_are_those_of_their_catalogues()
    ensures { (w : Readings) (h : List Command) → AreRules w (snapshot_of (tables w h)) }
{}

/// The documents of a recorded history are numbered from 1, the bytes of each are a document with
/// the row's namespace, and each has one profile, the one that it was imported with. Refused
/// documents, or documents that a second import of the same bytes numbers again, would not meet
/// this.
pub fn documents_are_numbered_and_read()
    ensures { (w : Readings) (h : List Command) → IsHistory w h
        → AreDocuments w (snapshot_of (tables w h)) }
{}

/// The packages and the extracted licences are those of the documents, each under the number of its
/// document, and there are no others. A table with only the packages that ship, or with those of
/// the last document with an id, would not meet this.
pub fn packages_are_those_of_their_documents()
    ensures { (w : Readings) (h : List Command) → ArePackages w (snapshot_of (tables w h)) }
{}

/// The duties of a recorded history are numbered from 1, at most 100,000 of them, and each is of a
/// release that was frozen under a revision: a release is opened in a form of a catalogue that was
/// loaded, and a freeze that would raise too many duties is refused. Without these refusals there
/// would be a revision 0 or a duty past the limit.
pub fn duties_are_numbered_and_few()
    ensures { (w : Readings) (h : List Command) → IsHistory w h
        → AreNumbered (snapshot_of (tables w h)) }
{}

/// In a recorded history a withdrawn release has no open and no waived duty, and any other release
/// no withdrawn one: a withdrawal moves each duty of its release that isn't met, and no other
/// command withdraws a duty or moves one of a withdrawn release. A withdrawal of only the open
/// duties, or a waiver that ends in a withdrawn release, would not meet this.
pub fn duties_stand_as_their_releases()
    ensures { (w : Readings) (h : List Command) → IsHistory w h
        → AreStates (snapshot_of (tables w h)) }
{}
