//! What is written for a text, kept for the next row with the same text.

ghost use Rattle.std.specs.Prelude.{◌≡◌, true, Some, IfOk};
ghost use Rattle.std.specs.String.{string_bytes};
ghost use Rattle.desk_tree_problems.specs.Rows.{named_words};
ghost use Rattle.desk_tree_reports.specs.Ways.{ShownText, rendered};

use crate::items::{escape, missing_end, missing_front, path_member};
use crate::lines::shown_text;
use crate::pieces::SharedBytes;
use desk_base::Text;
use std::alloc::{AllocError, Global};
use std::marker::Model;

/// How a text is written.
#[derive(Clone, Copy, PartialEq, Eq)]
pub(crate) enum Way {
    /// As the path at the front of a line.
    Line,
    /// As the path at the end of an item.
    Member,
    /// As the path of the file that names a licence, on a line.
    NamedLine,
    /// The same, in an item.
    NamedItem,
    /// As what comes before the licence in the item of a missing text, whatever the text.
    Front,
    /// As what comes after the words in such an item, whatever the text.
    End,
}

// The words about a file that names a licence.
fn named_words(alloc: Global, path: &str) -> Result<String, AllocError>
    ensures { IfOk result (λ words. string_bytes words ≡ named_words (Some path.now)) }
{
    format!(in alloc; ", which {path} names")
}

// What is written of a text.
fn render(alloc: Global, way: Way, text: &str) -> Result<Vec<u8>, AllocError>
    ensures { IfOk result (λ v. v.items ≡ rendered way text.now) }
{
    match way {
        Way::Line => shown_text(alloc, text),
        Way::Member => path_member(alloc, text),
        Way::NamedLine => shown_text(alloc, named_words(alloc, text)?.as_str()),
        Way::NamedItem => escape(alloc, named_words(alloc, text)?.as_str()),
        Way::Front => missing_front(alloc),
        Way::End => missing_end(alloc),
    }
}

/// A text, and what is written for it.
#[derive(Drop)]
pub(crate) struct Shown {
    way: Way,
    text: Text,
    share: SharedBytes,
}

impl Model for Shown {
    ghost use Rattle.std.specs.Prelude.{◌≡◌};
    ghost use Rattle.desk_tree_reports.specs.Ways.{ShownText, rendered};

    ghost Value = { ShownText };

    ghost view = { λ s. record { way = s.way; text = s.text } };

    ghost invariant = { λ s. s.share ≡ rendered s.way s.text };
}

impl Shown {
    // A text written in a way.
    fn of(alloc: Global, way: Way, text: &str) -> Result<Shown, AllocError>
        ensures { IfOk result (λ s. s ≡ record { way = way; text = text.now }) }
    {
        let share = SharedBytes::of(alloc, render(alloc, way, text)?)?;
        let text = Text::of(alloc, text)?;
        Ok(Shown { way, text, share })
    }

    // Whether it is this text in this way.
    fn is(&self, way: Way, text: &str) -> bool
        ensures { result ≡ true → self.now ≡ record { way = way; text = text.now } }
    {
        self.way == way && self.text.as_str() == text
    }

    // What is written.
    fn share(&self) -> Result<SharedBytes, AllocError>
        ensures { IfOk result (λ b. b ≡ rendered self.now.way self.now.text) }
    {
        self.share.clone()
    }
}

/// What is written for a text: what is kept, if that is for this text; otherwise it is kept from
/// now on.
pub(crate) fn share_of(
    alloc: Global,
    kept: &mut Option<Shown>,
    way: Way,
    text: &str,
) -> Result<SharedBytes, AllocError>
    ensures { IfOk result (λ b. b ≡ rendered way text.now) }
{
    if let Some(shown) = kept {
        if shown.is(way, text) {
            return shown.share();
        }
    }
    let shown = Shown::of(alloc, way, text)?;
    let share = shown.share()?;
    *kept = Some(shown);
    Ok(share)
}
