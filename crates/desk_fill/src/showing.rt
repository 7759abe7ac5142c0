//! The notices of a filled bill.

ghost use Rattle.std.specs.Prelude.{◌≡◌, IfOk, option_map};
ghost use Rattle.std.specs.String.{string_bytes};
ghost use Rattle.desk_report.specs.Notices.{notices_text};
ghost use Rattle.desk_report.specs.Terminal.{text_on};
ghost use Rattle.desk_fill.specs.Filling.{filled, gaps_of};
ghost use Rattle.desk_fill.specs.Showing.{filled_notices, gaps_line, is_whole, left_line, text_if};

use crate::fill::Fill;
use crate::filling::{Gaps, filled, gaps_of};
use desk_model::Bill;
use desk_report::{notices, notices_shown};
use std::alloc::{AllocError, Global};

/// How notices are to be written.
#[derive(Clone, Copy)]
pub struct Style {
    /// Not at all if something is missing.
    pub is_complete: bool,
    /// As a terminal shows them.
    pub is_terminal: bool,
}

/// Notices, and what they lack.
#[derive(Drop)]
pub struct Written {
    /// Their text, if they are written.
    pub text: Option<Vec<u8>>,
    /// What is missing after filling.
    pub gaps: Gaps,
}

impl Gaps {
    /// Whether nothing is missing.
    pub fn is_whole(self) -> bool
        ensures { result ≡ is_whole self }
    {
        self.credits == 0 && self.texts == 0
    }

    /// How much is missing, in a line, if anything is.
    pub fn line(self, alloc: Global) -> Result<String, AllocError>
        ensures { IfOk result (λ line. string_bytes line ≡ left_line self) }
    {
        if self.is_whole() {
            return Ok(String::new(alloc));
        }
        self.counted(alloc)
    }

    fn counted(self, alloc: Global) -> Result<String, AllocError>
        ensures { IfOk result (λ line. string_bytes line ≡ gaps_line self) }
    {
        format!(in alloc;
            "missing: copyrights {}, texts {}\n",
            self.credits, self.texts
        )
    }
}

// The notices of a bill.
fn text_of(alloc: Global, bill: &Bill, is_terminal: bool) -> Result<Vec<u8>, AllocError>
    ensures { IfOk result (λ text. text.items ≡ text_on is_terminal (notices_text bill.now)) }
{
    if is_terminal {
        notices_shown(alloc, bill)
    } else {
        notices(alloc, bill)
    }
}

// The notices of a bill, unless they must be complete and aren't.
fn text_if(alloc: Global, bill: &Bill, style: Style) -> Result<Option<Vec<u8>>, AllocError>
    ensures { IfOk result (λ found. option_map (λ text. text.items) found
        ≡ text_if style.is_complete style.is_terminal bill.now) }
{
    if style.is_complete && !gaps_of(bill).is_whole() {
        Ok(None)
    } else {
        Ok(Some(text_of(alloc, bill, style.is_terminal)?))
    }
}

/// The notices of a bill that is filled from some files, and what they lack. If they must be
/// complete and something is still missing, there is no text.
pub fn filled_notices(
    alloc: Global,
    bill: Bill,
    fills: &[Fill],
    style: Style,
) -> Result<Written, AllocError>
    ensures text { IfOk result (λ notices. option_map (λ text. text.items) notices.text
        ≡ filled_notices fills.now style.is_complete style.is_terminal bill) }
    ensures left { IfOk result (λ notices. notices.gaps ≡ gaps_of (filled fills.now bill)) }
{
    let bill = filled(alloc, bill, fills)?;
    let text = text_if(alloc, &bill, style)?;
    Ok(Written {
        text,
        gaps: gaps_of(&bill),
    })
}
