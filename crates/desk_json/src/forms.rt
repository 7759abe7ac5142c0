//! The forms of requests, by the words that name them.

ghost use Rattle.std.specs.Prelude.{◌≡◌};
ghost use Rattle.desk_json.specs.Forms.{form_named};

/// A form of request.
#[derive(Clone, Copy)]
pub(crate) enum Form {
    Catalogue,
    Import,
    Open,
    Attach,
    Choose,
    Freeze,
    Unchoose,
    Conclude,
    Adopt,
    Meet,
    Waive,
    Reopen,
    Withdraw,
    Close,
    Duties,
    Totals,
    Changes,
    Findings,
    Release,
    Alternatives,
    Cheapest,
    Releases,
    Documents,
    OpenDuties,
    Wanting,
    Ready,
    Gaps,
}

/// The word that names a form.
#[derive(Clone, Copy)]
pub(crate) struct Name {
    pub(crate) word: &'static str,
    pub(crate) form: Form,
}

/// The words that `do` may have.
pub(crate) const COMMANDS: [Name; 14] = [
    Name {
        word: "catalogue",
        form: Form::Catalogue,
    },
    Name {
        word: "import",
        form: Form::Import,
    },
    Name {
        word: "open",
        form: Form::Open,
    },
    Name {
        word: "attach",
        form: Form::Attach,
    },
    Name {
        word: "choose",
        form: Form::Choose,
    },
    Name {
        word: "freeze",
        form: Form::Freeze,
    },
    Name {
        word: "unchoose",
        form: Form::Unchoose,
    },
    Name {
        word: "conclude",
        form: Form::Conclude,
    },
    Name {
        word: "adopt",
        form: Form::Adopt,
    },
    Name {
        word: "meet",
        form: Form::Meet,
    },
    Name {
        word: "waive",
        form: Form::Waive,
    },
    Name {
        word: "reopen",
        form: Form::Reopen,
    },
    Name {
        word: "withdraw",
        form: Form::Withdraw,
    },
    Name {
        word: "close",
        form: Form::Close,
    },
];

/// The words that `ask` may have.
pub(crate) const QUERIES: [Name; 13] = [
    Name {
        word: "duties",
        form: Form::Duties,
    },
    Name {
        word: "totals",
        form: Form::Totals,
    },
    Name {
        word: "changes",
        form: Form::Changes,
    },
    Name {
        word: "findings",
        form: Form::Findings,
    },
    Name {
        word: "release",
        form: Form::Release,
    },
    Name {
        word: "alternatives",
        form: Form::Alternatives,
    },
    Name {
        word: "cheapest",
        form: Form::Cheapest,
    },
    Name {
        word: "releases",
        form: Form::Releases,
    },
    Name {
        word: "documents",
        form: Form::Documents,
    },
    Name {
        word: "open",
        form: Form::OpenDuties,
    },
    Name {
        word: "wanting",
        form: Form::Wanting,
    },
    Name {
        word: "ready",
        form: Form::Ready,
    },
    Name {
        word: "gaps",
        form: Form::Gaps,
    },
];

/// The form that a word names, if it names one.
pub(crate) fn form_named(word: &str, names: &[Name]) -> Option<Form>
    ensures { result ≡ form_named word.now names.now }
{
    for name in names {
        if word == name.word {
            return Some(name.form);
        }
    }
    None
}
