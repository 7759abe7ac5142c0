//! Which changes the tables can hold.

ghost use Rattle.std.specs.Prelude.{◌≡◌};
ghost use Rattle.std.specs.List.{list_all};
ghost use Rattle.desk_sql_layout.specs.Cells.{is_word};
ghost use Rattle.desk_sql_layout.specs.Writable.{rise, are_of, have_words, is_writable};

use desk_base::Text;
use desk_model::{Change, PackageRow, RuleRow};

fn is_word(text: &Text) -> bool
    ensures { result ≡ is_word text.now }
{
    let bytes = text.as_str().as_bytes();
    let mut left = bytes;
    while let Some((byte, rest)) = left.split_first() {
        if *byte == b' ' {
            return false;
        }
        left = rest;
    }
    !bytes.is_empty()
}

fn are_words(codes: &[Text]) -> bool
    ensures { result ≡ list_all is_word codes.now }
{
    let mut left = codes;
    while let Some((code, rest)) = left.split_first() {
        if !is_word(code) {
            return false;
        }
        left = rest;
    }
    true
}

/// Whether the codes of each rule can be separated again when they are joined.
fn have_words(rules: &[RuleRow]) -> bool
    ensures { result ≡ have_words rules.now }
{
    let mut left = rules;
    while let Some((rule, rest)) = left.split_first() {
        if !are_words(rule.codes.as_slice()) {
            return false;
        }
        left = rest;
    }
    true
}

/// Whether the packages are packages of the document.
fn are_of(document: u32, packages: &[PackageRow]) -> bool
    ensures { result ≡ are_of document packages.now }
{
    packages.iter().all(|package| package.document == document)
}

/// Whether each package is before the next one by its id.
fn rise(packages: &[PackageRow]) -> bool
    ensures { result ≡ rise packages.now }
{
    let mut left = packages;
    while let Some((first, rest)) = left.split_first() {
        let Some(next) = rest.first() else {
            return true;
        };
        if first.id.as_str() >= next.id.as_str() {
            return false;
        }
        left = rest;
    }
    true
}

/// Whether the tables can hold what a change writes. A change is not written if they couldn't
/// return its rows unchanged.
pub fn is_writable(change: &Change) -> bool
    ensures { result ≡ is_writable change.now }
{
    match change {
        Change::Loaded { rules, .. } => have_words(rules.as_slice()),
        Change::Imported {
            document,
            packages,
            ..
        } => are_of(document.number, packages.as_slice()) && rise(packages.as_slice()),
        _ => true,
    }
}
