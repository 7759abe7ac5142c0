//! What is written for a folder.

ghost use Rattle.std.specs.Prelude.{◌≡◌, ◌++◌, List, ℕ, [], IfOk, OnOk, Option, option_map};
ghost use Rattle.std.specs.String.{string_bytes};
ghost use Rattle.desk_entries.specs.Answers.{AnswersSifted, IsTextsAnswer, answer_by, left_line, left_lines, reason_words, refused};

use crate::sifting::{Left, Reason, Sifted, sift};
use crate::written::text_file;
use desk_base::{Items, add_shown, limits};
use desk_tree_gather::SourceFile;
use std::alloc::{AllocError, Global};

/// What is written.
#[derive(Drop)]
pub struct Answer {
    /// What standard output gets.
    pub text: Items<u8>,
    /// What standard error gets.
    pub notes: Items<u8>,
    /// The program's status.
    pub status: u8,
}

impl Reason {
    // The reason in words.
    fn words(self) -> &'static str
        ensures { result.now ≡ reason_words self }
    {
        match self {
            Reason::BadName => "its name is no id of a licence or an exception, and no reference",
            Reason::NotUtf8 => "it is not UTF-8",
            Reason::Nothing => "it is empty, or says NONE or NOASSERTION",
            Reason::Twice => "a file before it is named after the same id or reference",
        }
    }
}

// Adds the line of a file that is left out.
fn add_left(notes: &mut Vec<u8>, left: &Left) -> Result<(), AllocError>
    ensures { OnOk result (notes.new.items ≡ notes.old.items ++ left_line left.now) }
{
    add_shown(notes, left.path.as_str())?;
    notes.extend_from_slice(b": ")?;
    notes.extend_from_slice(left.reason.words().as_bytes())?;
    notes.push(b'\n')?;
    Ok(())
}

// The lines of all files that are left out.
fn left_lines(alloc: Global, left: &[Left]) -> Result<Vec<u8>, AllocError>
    ensures { IfOk result (λ notes. notes.items ≡ left_lines left.now) }
{
    let mut notes = Vec::new(alloc);
    for one in left {
        add_left(&mut notes, one)?;
    }
    Ok(notes)
}

/// Nothing is written, and standard error gets more words.
pub fn refused(alloc: Global, notes: Vec<u8>, words: &str) -> Result<Answer, AllocError>
    ensures { IfOk result (λ answer. answer ≡ refused (notes.items ++ words.now)) }
{
    let mut notes = notes;
    notes.extend_from_slice(words.as_bytes())?;
    Ok(Answer {
        text: Items::new(alloc),
        notes: Items::from_vec(notes),
        status: 1,
    })
}

// The answer with a file, if there is one.
fn answer_by(
    alloc: Global,
    notes: Vec<u8>,
    is_empty: bool,
    made: Option<String>,
) -> Result<Answer, AllocError>
    ensures { IfOk result (λ answer. answer
        ≡ answer_by notes.items is_empty (option_map string_bytes made)) }
{
    if is_empty {
        return refused(alloc, notes, "no text is found\n");
    }
    match made {
        Some(file) => Ok(Answer {
            text: Items::from_vec(file.into_bytes()),
            notes: Items::from_vec(notes),
            status: 0,
        }),
        None => refused(
            alloc,
            notes,
            "more than 10000 texts or 4 MiB: use several folders\n",
        ),
    }
}

// The answer with the texts of a folder.
fn answer_with(alloc: Global, sifted: Sifted) -> Result<Answer, AllocError>
    ensures { IfOk result (AnswersSifted sifted) }
{
    let Sifted { texts, left } = sifted;
    let notes = left_lines(alloc, left.as_slice())?;
    let made = text_file(alloc, texts.as_slice())?;
    answer_by(alloc, notes, texts.as_slice().is_empty(), made)
}

/// The texts of a folder as a file that fills gaps, and the files that are left out. The only error
/// is lack of memory.
pub fn texts(alloc: Global, files: &[SourceFile]) -> Result<Answer, AllocError>
    ensures { IfOk result (IsTextsAnswer files.now) }
{
    if files.len() > limits::TREE_FILES {
        return refused(alloc, Vec::new(alloc), "more than 10000 files\n");
    }
    let sifted = sift(alloc, files)?;
    answer_with(alloc, sifted)
}
