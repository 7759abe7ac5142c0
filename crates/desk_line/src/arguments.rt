//! The arguments of the subcommands.

ghost use Rattle.std.specs.Prelude.{◌≡◌, false, map, pos, IfOk};
ghost use Rattle.std.specs.List.{All};
ghost use Rattle.clap.specs.Words.{rule_of};
ghost use Rattle.clap.specs.declared.builder.value_parser.ValueParser.TheVariants.{Signed};
ghost use Rattle.desk_line.specs.Rows.{rule_at};

use clap::builder::ValueParser;
use clap::{Arg, ArgAction};
use std::alloc::{AllocError, Global};

/// How an argument is written among the words.
#[derive(Clone, Copy)]
pub(crate) enum Form {
    /// A required word at its position.
    Word,
    /// One word or more, up to the end of the line.
    Words,
    /// A value with this name and this default.
    Preset(&'static str, &'static str),
    /// A required value with this name.
    Wanted(&'static str),
    /// An optional value with this name.
    Optional(&'static str),
    /// Optional values with this name, one or more each time.
    Several(&'static str),
    /// A flag with this name, without a value.
    Flag(&'static str),
    /// A whole number from 0 to this one, required at its position.
    Count(u32),
    /// A required whole number with this name, from 0 to this one.
    Number(&'static str, u32),
    /// An optional whole number with this name, from 0 to this one.
    OptionalNumber(&'static str, u32),
}

/// An argument of a subcommand, with its line of help.
#[derive(Clone, Copy)]
pub(crate) struct Argument {
    name: &'static str,
    form: Form,
    help: &'static str,
}

macro_rules! argument {
    ($name:literal, $form:expr, $help:literal) => {
        Argument {
            name: $name,
            form: $form,
            help: $help,
        }
    };
}

// How the operators of a licence expression are written.
const PROFILE: Argument = argument!(
    "PROFILE",
    Form::Preset("profile", "1"),
    "How operators are written: 1 AND, OR, WITH; 2 also and, or, with"
);

const EXPRESSION: Argument = argument!(
    "EXPR",
    Form::Word,
    "The licence expression, one word: quote it"
);

// The file that keeps a desk.
const DATABASE: Argument = argument!("FILE", Form::Wanted("db"), "The file that keeps the desk");

// The same, for a subcommand that also works without one.
const OPTIONAL_DATABASE: Argument = argument!(
    "FILE",
    Form::Optional("db"),
    "The file that keeps the desk"
);

// For each subcommand whose explanations only a terminal gets otherwise.
const EXPLAIN: Argument = argument!(
    "EXPLAIN",
    Form::Flag("explain"),
    "Explains refusals on standard error, even if that is no terminal"
);

// For each subcommand that reads a document in JSON.
const NO_FILES: Argument = argument!(
    "NOFILES",
    Form::Flag("no-files"),
    "Leaves out files in JSON that change nothing about what ships"
);

const DOCUMENT: Argument = argument!("DOC", Form::Word, "The file of the document");

const FOLDER: Argument = argument!("DIR", Form::Word, "The folder of the tree");

pub(crate) const CHECK: [Argument; 3] = [
    PROFILE,
    EXPRESSION,
    argument!("TERM", Form::Words, "The chosen terms, one word each"),
];

pub(crate) const ALTERNATIVES: [Argument; 2] = [PROFILE, EXPRESSION];

pub(crate) const SCRIPT: [Argument; 3] = [
    OPTIONAL_DATABASE,
    argument!(
        "EXPLAIN",
        Form::Flag("explain"),
        "Reports each line that is not carried out on standard error"
    ),
    argument!(
        "STOP",
        Form::Flag("stop"),
        "Ends at the first line that is not carried out"
    ),
];

// For `do` and `ask`.
pub(crate) const REQUEST: [Argument; 3] = [
    DATABASE,
    argument!(
        "JSON",
        Form::Flag("json"),
        "Prints the line of a script on a terminal too"
    ),
    argument!(
        "WORD",
        Form::Words,
        "The word of the request, then KEY=VALUE for each of its keys"
    ),
];

pub(crate) const IMPORT: [Argument; 5] = [DATABASE, PROFILE, NO_FILES, EXPLAIN, DOCUMENT];

pub(crate) const CATALOGUE: [Argument; 2] = [
    DATABASE,
    argument!("TOML", Form::Word, "The file of the catalogue"),
];

const NAMED_RELEASE: Argument = argument!("RELEASE", Form::Word, "The name of the release");

// For each subcommand about a release.
pub(crate) const RELEASE: [Argument; 2] = [DATABASE, NAMED_RELEASE];

pub(crate) const WANTING: [Argument; 3] = [DATABASE, EXPLAIN, NAMED_RELEASE];

pub(crate) const READY: [Argument; 3] = [
    DATABASE,
    argument!(
        "DAY",
        Form::Optional("day"),
        "The day to which waivers must last, YYYY-MM-DD or today"
    ),
    NAMED_RELEASE,
];

pub(crate) const NOTICES: [Argument; 5] = [
    DATABASE,
    argument!(
        "EXTRA",
        Form::Several("fill"),
        "Files with texts and credits for what is missing"
    ),
    argument!(
        "COMPLETE",
        Form::Flag("complete"),
        "Writes nothing if something is missing"
    ),
    EXPLAIN,
    NAMED_RELEASE,
];

pub(crate) const CHANGES: [Argument; 2] = [
    DATABASE,
    argument!("DUTY", Form::Count(u32::MAX), "The number of the duty"),
];

// For `audit` and `migrate`.
pub(crate) const FILE: [Argument; 1] = [DATABASE];

pub(crate) const BACKUP: [Argument; 2] = [
    DATABASE,
    argument!(
        "TO",
        Form::Word,
        "The file of the copy, which must not exist yet"
    ),
];

pub(crate) const GATHER: [Argument; 4] = [
    FOLDER,
    argument!(
        "NAME",
        Form::Wanted("name"),
        "The name of the document and of its package"
    ),
    argument!(
        "NAMESPACE",
        Form::Wanted("namespace"),
        "The URI that no other document has"
    ),
    argument!(
        "CREATED",
        Form::Wanted("created"),
        "When it is made, as 2025-01-01T00:00:00Z"
    ),
];

pub(crate) const TEXTS: [Argument; 1] = [argument!("DIR", Form::Word, "The folder with the texts")];

pub(crate) const CREDITS: [Argument; 3] = [
    FOLDER,
    argument!("NAME", Form::Wanted("name"), "The name of the package"),
    argument!("VERSION", Form::Optional("of-version"), "Its version"),
];

pub(crate) const LINT: [Argument; 2] = [
    FOLDER,
    argument!("JSON", Form::Flag("json"), "Prints one JSON object"),
];

pub(crate) const SERVE: [Argument; 3] = [
    DATABASE,
    argument!(
        "PORT",
        Form::Number("port", 65_535),
        "The port, up to 65535; 0 picks a free one"
    ),
    argument!(
        "N",
        Form::Number("limit", 1_000_000),
        "How many connections it serves, up to 1000000"
    ),
];

pub(crate) const NAMED: [Argument; 1] = [argument!(
    "NAME",
    Form::Word,
    "The name, as the desk prints it"
)];

pub(crate) const PROPOSE: [Argument; 5] = [
    OPTIONAL_DATABASE,
    argument!(
        "PROFILE",
        Form::Optional("profile"),
        "How operators are written: 1 (the default) AND, OR, WITH; 2 also and, or, with"
    ),
    argument!(
        "N",
        Form::OptionalNumber("document", u32::MAX),
        "The number that import gave the document"
    ),
    EXPLAIN,
    argument!(
        "DOC",
        Form::Word,
        "The file of the document, or with --db its number"
    ),
];

pub(crate) const LIST: [Argument; 6] = [
    DATABASE,
    argument!(
        "RELEASE",
        Form::Optional("release"),
        "The release whose duties are listed"
    ),
    argument!(
        "CODE",
        Form::Optional("code"),
        "The code of the duties that are listed"
    ),
    argument!("OPEN", Form::Flag("open"), "Lists only open duties"),
    argument!(
        "DAY",
        Form::Optional("past"),
        "Lists only duties whose waiver has its last day before this day, YYYY-MM-DD"
    ),
    argument!("WHAT", Form::Word, "releases, documents or duties"),
];

pub(crate) const CONVERT: [Argument; 2] = [
    NO_FILES,
    argument!("JSON", Form::Word, "The file of the document"),
];

/// A whole number up to this one.
fn whole<'a>(most: u32) -> ValueParser<'a>
    ensures { result ≡ Signed (pos 0) (pos most) }
{
    ValueParser::Signed(0, i64::from(most))
}

/// An argument as `clap` reads it.
fn arg<'a>(alloc: Global, row: &Argument) -> Arg<'a>
    ensures rule { rule_of result ≡ rule_at row.now }
    ensures local { result.global ≡ false }
{
    let arg = Arg::new(alloc, row.name).help(row.help);
    match row.form {
        Form::Word => arg.required(true),
        Form::Words => arg.required(true).num_args(1..),
        Form::Preset(long, value) => arg.long(long).default_value(value),
        Form::Wanted(long) => arg.long(long).required(true),
        Form::Optional(long) => arg.long(long),
        Form::Several(long) => arg.long(long).action(ArgAction::Append).num_args(1..),
        Form::Flag(long) => arg.long(long).action(ArgAction::SetTrue),
        Form::Count(most) => arg.required(true).value_parser(whole(most)),
        Form::Number(long, most) => arg.long(long).required(true).value_parser(whole(most)),
        Form::OptionalNumber(long, most) => arg.long(long).value_parser(whole(most)),
    }
}

/// Arguments as `clap` reads them.
pub(crate) fn args<'a>(alloc: Global, rows: &[Argument]) -> Result<Vec<Arg<'a>>, AllocError>
    ensures rules { IfOk result (λ args. map rule_of args.items ≡ map rule_at rows.now) }
    ensures local { IfOk result (λ args. All (λ arg. arg.global ≡ false) args.items) }
{
    let mut args = Vec::new(alloc);
    for row in rows {
        args.push(arg(alloc, row))?;
    }
    Ok(args)
}
