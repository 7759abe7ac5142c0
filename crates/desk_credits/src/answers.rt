//! What is written for a source tree.

ghost use Rattle.std.specs.Prelude.{◌≡◌, ◌++◌, IfOk, List, OnOk, codes, decimal, option_map};
ghost use Rattle.std.specs.String.{string_bytes};
ghost use Rattle.desk_tree_gather.specs.Shown.{tree_in};
ghost use Rattle.desk_tree_gather.specs.Survey.{flaws_of, infos_sifted, kept};
ghost use Rattle.desk_tree_gather.specs.declared.files.SourceFile.{SourceFile};
ghost use Rattle.desk_tree_infos.specs.Readers.{Reader, IsRightReader};
ghost use Rattle.desk_credits.specs.Answers.{AnswersNotices, AnswersTree, IsCreditsAnswer, answer_by, flaw_line, flaw_lines, left_line};
ghost use Rattle.desk_credits.specs.Written.{credit_for};

use crate::notice::Notice;
use crate::tree::notices_of;
use crate::written::{credit_file, credit_for, if_fits};
use desk_base::{Items, add_shown, limits};
use desk_entries::{Answer, refused};
use desk_fill::{Credit, says_something};
use desk_tree_gather::{Flaw, SourceFile, Surveyed, survey};
use std::alloc::{AllocError, Global};

// Adds a line about a file.
fn add_left(notes: &mut Vec<u8>, path: &str, words: &str) -> Result<(), AllocError>
    ensures { OnOk result (notes.new.items ≡ notes.old.items ++ left_line path.now words.now) }
{
    add_shown(notes, path)?;
    notes.extend_from_slice(b": ")?;
    notes.extend_from_slice(words.as_bytes())?;
    notes.push(b'\n')?;
    Ok(())
}

// What is said of an annotation that can't be read.
fn annotation_words(alloc: Global, index: usize) -> Result<String, AllocError>
    ensures { IfOk result (λ text. string_bytes text
        ≡ codes "its annotation " ++ (decimal index ++ codes " can not be read")) }
{
    format!(in alloc; "its annotation {index} can not be read")
}

// Adds the line of a flaw because of which notices may be missing.
fn add_flaw(alloc: Global, notes: &mut Vec<u8>, flaw: &Flaw) -> Result<(), AllocError>
    ensures { OnOk result (notes.new.items ≡ notes.old.items ++ flaw_line flaw.now) }
{
    match flaw {
        Flaw::TooManyFiles => Ok(()),
        Flaw::BadPath(path) => add_left(notes, path.as_str(), "its path can not be in a tree"),
        Flaw::TwicePath(path) => add_left(notes, path.as_str(), "its path is there twice"),
        Flaw::BadToml(path) => {
            add_left(notes, path.as_str(), "it is no TOML document of version 1")
        }
        Flaw::BadAnnotation(path, index, _) => {
            let words = annotation_words(alloc, *index)?;
            add_left(notes, path.as_str(), words.as_str())
        }
        Flaw::BadExpression(_, _, _) => Ok(()),
    }
}

// The lines of all flaws.
fn flaw_lines(alloc: Global, flaws: &[Flaw]) -> Result<Vec<u8>, AllocError>
    ensures { IfOk result (λ notes. notes.items ≡ flaw_lines flaws.now) }
{
    let mut notes = Vec::new(alloc);
    for flaw in flaws {
        add_flaw(alloc, &mut notes, flaw)?;
    }
    Ok(notes)
}

// The answer with a file, if there is one.
fn answer_by(alloc: Global, notes: Vec<u8>, made: Option<Vec<u8>>) -> Result<Answer, AllocError>
    ensures { IfOk result (λ answer. answer
        ≡ answer_by notes.items (option_map (λ bytes. bytes.items) made)) }
{
    match made {
        Some(file) => Ok(Answer {
            text: Items::from_vec(file),
            notes: Items::from_vec(notes),
            status: 0,
        }),
        None => refused(alloc, notes, "more than 4 MiB\n"),
    }
}

// The answer with these notices.
fn answer_with(
    alloc: Global,
    notes: Vec<u8>,
    notices: &[Notice],
    credit: &Credit,
) -> Result<Answer, AllocError>
    ensures { IfOk result (AnswersNotices notes.items notices.now credit.now) }
{
    if !says_something(credit.text.as_str()) {
        return refused(alloc, notes, "no notice is found\n");
    }
    let file = credit_file(alloc, notices, credit)?;
    answer_by(alloc, notes, if_fits(file))
}

// The answer for a tree that was surveyed.
fn answer_for(
    alloc: Global,
    surveyed: &Surveyed<'_>,
    name: &str,
    version: Option<&str>,
) -> Result<Answer, AllocError>
    ensures { (r : Reader) (files : List SourceFile)
        → surveyed.now.flaws ≡ flaws_of r files
        → tree_in surveyed.now.tree ≡ kept files
        → surveyed.now.infos ≡ infos_sifted r (kept files)
        → IfOk result (AnswersTree r files name.now
        (option_map (λ text. text.now) version.entry)) }
{
    let notes = flaw_lines(alloc, surveyed.flaws.as_slice())?;
    let notices = notices_of(alloc, surveyed)?;
    let credit = credit_for(alloc, name, version, notices.as_slice())?;
    answer_with(alloc, notes, notices.as_slice(), &credit)
}

/// The credit of a package from the notices of a source tree, as a file that fills gaps, and the
/// files because of which notices may be missing. The only error is lack of memory.
pub fn credits(
    alloc: Global,
    files: &[SourceFile],
    name: &str,
    version: Option<&str>,
) -> Result<Answer, AllocError>
    ensures { (r : Reader) → IsRightReader r → IfOk result (IsCreditsAnswer r files.now name.now
        (option_map (λ text. text.now) version.entry)) }
{
    if files.len() > limits::TREE_FILES {
        return refused(alloc, Vec::new(alloc), "more than 10000 files\n");
    }
    let surveyed = survey(alloc, files)?;
    answer_for(alloc, &surveyed, name, version)
}
