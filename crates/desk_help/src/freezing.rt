//! The help of preparing a freeze.

use crate::Help;

const AFTER_HELP: &str = "\
A FILE without a desk of this version is left unchanged, and one line says so, as with duties.

Examples:
  desk wanting --db desk.db r1
  desk choices --db desk.db r1 >choose.jsonl
  desk script --db desk.db <choose.jsonl

Statuses:
  0  nothing prevents a freeze; or the choices were written, if there are any
  1  something does, or a document ships no package; or it was refused, or FILE keeps no such desk
  2  the command line is wrong
  3  no memory, or a file or stream failed";

/// The help of `wanting`.
pub const WANTING: Help = Help {
    about: "Lists everything that prevents a freeze",
    long_about: "\
Lists everything that prevents a freeze

The request freeze reports only the first obstacle. Here each is a line, in the order in which a freeze
would meet them, as the reply to a request that is refused:

  {\"at\":[1,\"SPDXRef-p\"],\"name\":\"NoChoice\",\"refused\":19}

These are packages without a conclusion or a choice, references that aren't adopted, and terms without a
rule in the form of RELEASE; or, as the only line, that there is no such release, that it isn't open, or that
no document is attached. With --explain or on a terminal, standard error says in words what each line means.
It always names attached documents that ship no package: they raise no duty, and the status is 1. If nothing
is printed, a freeze is accepted, unless its duties don't fit the desk.

Nothing is recorded in FILE.",
    after_help: AFTER_HELP,
};

/// The help of `choices`.
pub const CHOICES: Help = Help {
    about: "Writes the choice for each package of a release that has only one",
    long_about: "\
Writes the choice for each package of a release that has only one

For each package that RELEASE ships, for which nothing is chosen yet and whose conclusion has only one
choice, a line is printed: the request choose, as script reads it.

  {\"do\":\"choose\",\"document\":1,\"package\":\"SPDXRef-p\",\"release\":\"r1\",\"terms\":[\"mit\"]}

A conclusion with OR has several choices, which desk alternatives lists; it is left out. Nothing is chosen
until the lines are passed to script. If the release isn't open, the reply line of a refusal is printed.

Nothing is recorded in FILE.",
    after_help: AFTER_HELP,
};
