//! The texts of a folder.

ghost use Rattle.std.specs.Prelude.{◌≡◌, ◌==◌, ◌++◌, ◌∷◌, [], map, true, false, IfOk, IfSome, OnOk, None};
ghost use Rattle.std.specs.List.{list_any};
ghost use Rattle.std.specs.Str.{is_utf8};
ghost use Rattle.desk_fill.specs.Subjects.{Knows, subject_of_text};
ghost use Rattle.desk_tree_lint.specs.Texts.{stem};
ghost use Rattle.desk_entries.specs.Sifting.{Reads, is_direct, reason_for, sifted, with_file};

use desk_base::{Items, Text};
use desk_fill::{Subject, is_name, is_repeated, says_something};
use desk_model::LicenceText;
use desk_tree_gather::SourceFile;
use std::alloc::{AllocError, Global};
use std::collections::BTreeMap;

/// Why a file is no text of a licence.
#[derive(Clone, Copy, Debug, PartialEq, Eq)]
pub enum Reason {
    /// Its name is no id of a licence or an exception, and no reference.
    BadName,
    /// It is not UTF-8.
    NotUtf8,
    /// It is empty, or says NONE or NOASSERTION.
    Nothing,
    /// A file before it is named after the same id or reference.
    Twice,
}

/// A file that is left out.
#[derive(Drop)]
pub struct Left {
    /// Its path.
    pub path: Text,
    /// Why.
    pub reason: Reason,
}

/// The files of a folder.
#[derive(Drop)]
pub struct Sifted {
    /// The texts, in the order of their files.
    pub texts: Items<LicenceText>,
    /// The files that are left out, in their order.
    pub left: Items<Left>,
}

// Whether a path leads into a folder.
fn has_slash(path: &[u8]) -> bool
    ensures { result ≡ list_any (λ b. b == 47) path.now }
{
    path.iter().any(|byte| *byte == b'/')
}

// Whether a file is in the folder itself.
fn is_direct(path: &str) -> bool
    ensures { result ≡ is_direct path.now }
{
    !has_slash(path.as_bytes())
}

// A name without the part from its last full stop on.
fn stem(name: &str) -> &str
    ensures { result.now ≡ stem name.now }
{
    match name.rfind('.') {
        Some(end) => name.split_at(end).0,
        None => name,
    }
}

/// Bytes as a text, if they are one.
pub fn text_at(bytes: &[u8]) -> Option<&str>
    ensures some { IfSome result (λ text. (text.now ≡ bytes.now) × (is_utf8 bytes.now ≡ true)) }
    ensures none { result ≡ None → is_utf8 bytes.now ≡ false }
{
    match str::from_utf8(bytes) {
        Ok(text) => Some(text),
        Err(_) => None,
    }
}

// The text that a file is, or why it is none. The only error is lack of memory.
fn text_in(alloc: Global, file: &SourceFile) -> Result<Result<LicenceText, Reason>, AllocError>
    ensures { IfOk result (Reads file.now) }
{
    let name = stem(file.path.as_str());
    if !is_name(name) {
        return Ok(Err(Reason::BadName));
    }
    let Some(body) = text_at(file.bytes.as_slice()) else {
        return Ok(Err(Reason::NotUtf8));
    };
    if !says_something(body) {
        return Ok(Err(Reason::Nothing));
    }
    Ok(Ok(LicenceText {
        title: Text::of(alloc, name)?,
        body: Text::of(alloc, body)?,
    }))
}

impl Sifted {
    // Adds a file that is left out.
    fn leave(&mut self, alloc: Global, path: &Text, reason: Reason) -> Result<(), AllocError>
        ensures texts { OnOk result (self.new.texts ≡ self.old.texts) }
        ensures left { OnOk result (self.new.left
            ≡ self.old.left ++ record { path = path.now; reason = reason } ∷ []) }
    {
        let path = Text::of(alloc, path.as_str())?;
        self.left.push(Left { path, reason })
    }

    // Adds a file of the folder, and what its text is for.
    fn add(
        &mut self,
        alloc: Global,
        firsts: &mut BTreeMap<Subject, usize>,
        file: &SourceFile,
    ) -> Result<(), AllocError>
        requires { Knows (map subject_of_text self.old.texts) firsts.old }
        ensures knows { OnOk result (Knows (map subject_of_text self.new.texts) firsts.new) }
        ensures added { OnOk result (self.new
            ≡ with_file self.old file.now (reason_for self.old.texts file.now)) }
    {
        let text = match text_in(alloc, file)? {
            Ok(text) => text,
            Err(reason) => return self.leave(alloc, &file.path, reason),
        };
        if is_repeated(alloc, firsts, self.texts.as_slice(), &text)? {
            return self.leave(alloc, &file.path, Reason::Twice);
        }
        self.texts.push(text)
    }
}

/// The texts of the files of a folder, and the files that are left out. The only error is lack of
/// memory.
pub fn sift(alloc: Global, files: &[SourceFile]) -> Result<Sifted, AllocError>
    ensures { IfOk result (λ s. s ≡ sifted files.now) }
{
    let mut sifted = Sifted {
        texts: Items::new(alloc),
        left: Items::new(alloc),
    };
    let mut firsts = BTreeMap::new(alloc);
    for file in files {
        if is_direct(file.path.as_str()) {
            sifted.add(alloc, &mut firsts, file)?;
        }
    }
    Ok(sifted)
}
