//! The two kinds of requests.

ghost use Rattle.std.specs.Prelude.{◌≡◌};
ghost use Rattle.desk_assignments.specs.Words.{verb_key};

/// Whether a word names a command or a question.
#[derive(Clone, Copy, Debug, PartialEq, Eq)]
pub enum Verb {
    /// The desk is to do what the word names.
    Do,
    /// It is asked what the word names.
    Ask,
}

impl Verb {
    /// The key of the word in a request in JSON.
    pub fn key(self) -> &'static str
        ensures { result.now ≡ verb_key self }
    {
        match self {
            Verb::Do => "do",
            Verb::Ask => "ask",
        }
    }
}
