//! The minimal sets of an expression, written out.

ghost use Rattle.std.specs.Prelude.{◌≡◌, ◌++◌, ℕ, List, IfOk, IfErr, OnOk};
ghost use Rattle.std.specs.Io.KnownBytes.{Appends, Keeps};
ghost use Rattle.std.specs.String.{string_bytes};
ghost use Rattle.desk_subcommands.specs.Failures.{IfMemory, IsOfOutput};
ghost use Rattle.desk_subcommands.specs.Listing.{IsListing, IsListingOf, listing_status, listing_text, Lists, ListsOnce, set_text, sets_text};

use crate::failure::Failure;
use crate::report::Report;
use desk_alts::{AltFault, TermSet};
use desk_expr::{Expr, ParseFault, Profile, parse_in, print_term, unless_memory};
use std::alloc::{AllocError, Global};
use std::io::Write;

/// The answer of `alternatives`.
#[derive(Drop)]
pub enum Listing {
    /// The minimal sets of the expression.
    Sets(Vec<TermSet>),
    /// The expression has more distinct terms than can be listed.
    TooManyTerms,
    /// At some node there are more minimal sets than can be listed.
    TooMany,
    /// Why the expression cannot be read.
    Unread(ParseFault),
}

// Adds the terms of a set to a text.
fn add_set(alloc: Global, text: &mut String, set: &TermSet) -> Result<(), AllocError>
    ensures { OnOk result (string_bytes text.new ≡ string_bytes text.old ++ set_text set.now) }
{
    let terms = set.terms();
    let mut between = "";
    for term in terms {
        text.push_str(between)?;
        text.push_str(&print_term(alloc, term)?)?;
        between = ", ";
    }
    Ok(())
}

// A line for each set.
fn lines_of(alloc: Global, sets: &[TermSet]) -> Result<String, AllocError>
    ensures { IfOk result (λ text. string_bytes text ≡ sets_text sets.now) }
{
    let mut text = String::new(alloc);
    for set in sets {
        add_set(alloc, &mut text, set)?;
        text.push_str("\n")?;
    }
    Ok(text)
}

impl Listing {
    /// The program's status: 0 for sets, and 1 for anything else.
    fn status(&self) -> u8
        ensures { result ≡ listing_status self.now }
    {
        match self {
            Listing::Sets(_) => 0,
            _ => 1,
        }
    }

    fn text(&self, alloc: Global) -> Result<String, AllocError>
        ensures { IfOk result (λ text. string_bytes text ≡ listing_text self.now) }
    {
        match self {
            Listing::Sets(sets) => lines_of(alloc, sets),
            Listing::TooManyTerms => String::from_str(alloc, "fault: TooManyTerms\n"),
            Listing::TooMany => String::from_str(alloc, "fault: TooMany\n"),
            Listing::Unread(fault) => {
                let report = Report::Fault(*fault);
                format!(in alloc; "{report}\n")
            }
        }
    }
}

fn listing_of(alloc: Global, tree: &Expr) -> Result<Listing, AllocError>
    ensures { IfOk result (IsListingOf tree.now) }
{
    match desk_alts::alternatives(alloc, tree) {
        Ok(sets) => Ok(Listing::Sets(sets)),
        Err(AltFault::TooManyTerms) => Ok(Listing::TooManyTerms),
        Err(AltFault::TooMany) => Ok(Listing::TooMany),
        Err(AltFault::Memory(error)) => Err(error),
    }
}

fn list(alloc: Global, expression: &str, profile: Profile) -> Result<Listing, AllocError>
    ensures { IfOk result (IsListing profile expression.now) }
{
    match parse_in(alloc, expression, profile) {
        Ok(tree) => listing_of(alloc, &tree),
        Err(fault) => Ok(Listing::Unread(unless_memory(fault)?)),
    }
}

/// Writes the minimal sets of terms that satisfy the licence expression, whose operators are
/// written by the profile, one on each line, or why they aren't listed, and returns the program's
/// status. If no memory is left, nothing is written.
pub fn alternatives<W: Write>(
    alloc: Global,
    expression: &str,
    profile: Profile,
    writer: &mut W,
) -> Result<u8, Failure>
    ensures told { IfOk result (λ status. (text : List ℕ) × Lists profile expression.now text status
        × Appends (W.contents writer.old) (W.contents writer.new) text) }
    ensures once { ListsOnce profile expression.now }
    ensures fails { IfErr result IsOfOutput }
    ensures memory { IfErr result
        (IfMemory (Keeps (W.contents writer.old) (W.contents writer.new))) }
{
    let listing = list(alloc, expression, profile)?;
    let text = listing.text(alloc)?;
    writer.write_all(text.as_bytes())?;
    writer.flush()?;
    Ok(listing.status())
}
