//! What a draft lacks about its files.

ghost use Rattle.std.specs.Prelude.{◌≡◌};
ghost use Rattle.desk_tree_document.specs.Gaps.{gaps_of, has_no_licence, has_no_notice, is_unsaid};

use desk_tagvalue::{Draft, DraftFile};

/// For how many files a document gives no licence or no notice.
#[derive(Clone, Copy, Debug, PartialEq, Eq)]
pub struct Gaps {
    /// The files for which it gives no licence.
    pub licences: usize,
    /// The files for which it gives no notice.
    pub notices: usize,
}

fn is_unsaid(value: &str) -> bool
    ensures { result ≡ is_unsaid value.now }
{
    value == "NOASSERTION"
}

fn has_no_licence(file: &DraftFile) -> bool
    ensures { result ≡ has_no_licence file.now }
{
    is_unsaid(file.concluded.as_str())
}

fn has_no_notice(file: &DraftFile) -> bool
    ensures { result ≡ has_no_notice file.now }
{
    is_unsaid(file.copyright.as_str())
}

/// For how many files a draft gives no licence, and for how many no notice.
pub(crate) fn gaps_of(draft: &Draft) -> Gaps
    ensures { result ≡ gaps_of draft.now }
{
    let files = draft.files.as_slice();
    Gaps {
        licences: files.iter().filter(|file| has_no_licence(file)).count(),
        notices: files.iter().filter(|file| has_no_notice(file)).count(),
    }
}
