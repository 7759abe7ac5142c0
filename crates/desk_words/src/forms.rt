//! The keys of each form of request.

/// What the value of a key must be.
#[derive(Clone, Copy, Debug, PartialEq, Eq)]
pub enum Wanted {
    /// A text.
    Text,
    /// A whole number, 0 to 9,223,372,036,854,775,807.
    Number,
    /// The number of a profile of operators.
    Profile,
    /// A list of texts.
    Texts,
}

/// A key of a form.
#[derive(Clone, Copy)]
pub(crate) struct Key {
    pub(crate) name: &'static str,
    pub(crate) wanted: Wanted,
    /// Whether it may be left out.
    pub(crate) is_optional: bool,
}

/// A form of request: the word that names it, and its keys besides that of the word.
#[derive(Clone, Copy)]
pub(crate) struct Form {
    pub(crate) word: &'static str,
    pub(crate) keys: &'static [Key],
}

const DAY: Key = Key {
    name: "day",
    wanted: Wanted::Text,
    is_optional: false,
};

const OPTIONAL_DAY: Key = Key {
    name: "day",
    wanted: Wanted::Text,
    is_optional: true,
};

const DOCUMENT: Key = Key {
    name: "document",
    wanted: Wanted::Number,
    is_optional: false,
};

const DUTY: Key = Key {
    name: "duty",
    wanted: Wanted::Number,
    is_optional: false,
};

const EXPRESSION: Key = Key {
    name: "expression",
    wanted: Wanted::Text,
    is_optional: false,
};

const FORM: Key = Key {
    name: "form",
    wanted: Wanted::Text,
    is_optional: false,
};

const LICENCE: Key = Key {
    name: "licence",
    wanted: Wanted::Text,
    is_optional: false,
};

const PACKAGE: Key = Key {
    name: "package",
    wanted: Wanted::Text,
    is_optional: false,
};

const PROFILE: Key = Key {
    name: "profile",
    wanted: Wanted::Profile,
    is_optional: true,
};

const REFERENCE: Key = Key {
    name: "reference",
    wanted: Wanted::Text,
    is_optional: false,
};

const RELEASE: Key = Key {
    name: "release",
    wanted: Wanted::Text,
    is_optional: false,
};

const TERMS: Key = Key {
    name: "terms",
    wanted: Wanted::Texts,
    is_optional: false,
};

const TEXT: Key = Key {
    name: "text",
    wanted: Wanted::Text,
    is_optional: false,
};

const UNTIL: Key = Key {
    name: "until",
    wanted: Wanted::Text,
    is_optional: true,
};

/// The forms that the value of `do` can name.
pub(crate) const COMMANDS: [Form; 14] = [
    Form {
        word: "catalogue",
        keys: &[TEXT],
    },
    Form {
        word: "import",
        keys: &[TEXT, PROFILE],
    },
    Form {
        word: "open",
        keys: &[RELEASE, FORM],
    },
    Form {
        word: "attach",
        keys: &[RELEASE, DOCUMENT],
    },
    Form {
        word: "choose",
        keys: &[RELEASE, DOCUMENT, PACKAGE, TERMS],
    },
    Form {
        word: "freeze",
        keys: &[RELEASE, DAY],
    },
    Form {
        word: "unchoose",
        keys: &[RELEASE, DOCUMENT, PACKAGE],
    },
    Form {
        word: "conclude",
        keys: &[DOCUMENT, PACKAGE, EXPRESSION],
    },
    Form {
        word: "adopt",
        keys: &[DOCUMENT, REFERENCE, LICENCE],
    },
    Form {
        word: "meet",
        keys: &[DUTY, DAY, TEXT],
    },
    Form {
        word: "waive",
        keys: &[DUTY, DAY, TEXT, UNTIL],
    },
    Form {
        word: "reopen",
        keys: &[DUTY, DAY, TEXT],
    },
    Form {
        word: "withdraw",
        keys: &[RELEASE, DAY, TEXT],
    },
    Form {
        word: "close",
        keys: &[DAY],
    },
];

/// The forms that the value of `ask` can name.
pub(crate) const QUERIES: [Form; 13] = [
    Form {
        word: "duties",
        keys: &[RELEASE],
    },
    Form {
        word: "totals",
        keys: &[RELEASE],
    },
    Form {
        word: "changes",
        keys: &[DUTY],
    },
    Form {
        word: "findings",
        keys: &[DOCUMENT],
    },
    Form {
        word: "release",
        keys: &[RELEASE],
    },
    Form {
        word: "alternatives",
        keys: &[DOCUMENT, PACKAGE],
    },
    Form {
        word: "cheapest",
        keys: &[DOCUMENT, PACKAGE, FORM],
    },
    Form {
        word: "releases",
        keys: &[],
    },
    Form {
        word: "documents",
        keys: &[],
    },
    Form {
        word: "open",
        keys: &[],
    },
    Form {
        word: "wanting",
        keys: &[RELEASE],
    },
    Form {
        word: "ready",
        keys: &[RELEASE, OPTIONAL_DAY],
    },
    Form {
        word: "gaps",
        keys: &[RELEASE],
    },
];

/// The form that a word names, if there is one.
pub(crate) fn form_named<'a>(word: &str, forms: &'a [Form]) -> Option<&'a Form> {
    for form in forms {
        if word == form.word {
            return Some(form);
        }
    }
    None
}

impl Form {
    /// Whether the form has a key, besides that of its word.
    pub(crate) fn has(&self, name: &str) -> bool {
        self.keys.iter().any(|key| key.name == name)
    }
}
