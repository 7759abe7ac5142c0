//! What the code of a package says about its files.

ghost use Rattle.std.specs.Prelude.{◌≡◌, ◌||◌, ◌↔◌, ◌<◌, ◌+◌, ◌-◌, ◌∷◌, ◌++◌, [], ℕ, List, IfOk, IfSome, IfNone, OnOk, Some, None, length, take, drop, map, nat_eq, true, false, IsTrue, if◌then◌else◌, ◌==◌, slice_get, not};
ghost use Rattle.std.specs.List.{ends_with, starts_with, slice_split, list_any};
ghost use Rattle.std.specs.Option.{option_map};
ghost use Rattle.std.specs.Str.{bytes_eq};
ghost use Rattle.desk_fields.specs.Text.{trimmed};
ghost use Rattle.desk_base.specs.Folded.{folded};
ghost use Rattle.hex.specs.Hex.{encode_lower};
ghost use Rattle.desk_tagvalue.specs.Documents.{document_text};
ghost use Rattle.desk_tagvalue.specs.Entries.{value_text};
ghost use Rattle.desk_tagvalue.specs.Views.{package_text, file_text};
ghost use Rattle.desk_tagvalue.specs.Parts.{DocumentText};
ghost use Rattle.desk_bom.specs.declared.state.CodeState.{CodeState};
ghost use Rattle.desk_bom.specs.Codes.{IsCode, items_of, files_at, has_name, code_digits, code_list, is_list, is_code, names_in, plain, names_of, excluded_by, excluded_names, inner_of, is_excluded, digest_spelled, digests_of, is_unanalyzed, checked_digests, IsStateOf, IsState};
ghost use Rattle.desk_base.specs.Borrowed.{texts};

use crate::arrows::Arrow;
use crate::codes::verification_code;
use crate::places::Places;
use crate::{Contents, Elements};
use desk_fields::{skip_blanks, trim};
use desk_tagvalue::{Document, FileEntry, Package, all_hex, behind};
use hex::FromHex;
use std::alloc::{AllocError, Global};

/// What the verification code of a package says about its files (SPDX 2.3, clause 7.9).
#[derive(Debug, Clone, Copy, PartialEq, Eq)]
pub enum CodeState {
    /// The package has no code.
    Absent,
    /// The code can't be checked: `FilesAnalyzed` is false, the code is of another form, or a file
    /// that isn't excluded has no SHA1.
    Unchecked,
    /// The code is that of the files.
    Agrees,
    /// The code is another one.
    Differs,
}

/// The digits of a code and what it excludes, as they are in the field.
#[derive(Clone, Copy)]
pub(crate) struct CodeField<'a> {
    digits: &'a str,
    names: Option<&'a str>,
}

// A name of a file without a leading `./`.
fn plain(name: &str) -> &str
    ensures { result.now ≡ plain name.now }
{
    match behind(name, "./") {
        Some(rest) => rest,
        None => name,
    }
}

// What is between `(` and `)`.
fn list_inside(text: &str) -> Option<&str>
    ensures none { IfNone result (is_list text.now ≡ false) }
    ensures some { IfSome result (λ inner. is_list text.now ≡ true) }
    ensures inner { IfSome result (λ inner. inner.now ≡ inner_of text.now) }
{
    match behind(text, "(") {
        Some(rest) => rest.strip_suffix(")"),
        None => None,
    }
}

// The names, without what may precede them.
fn names_in(inner: &str) -> &str
    ensures { result.now ≡ names_in inner.now }
{
    match behind(inner, "excludes: ") {
        Some(names) => names,
        None => inner,
    }
}

// The parts of a code of the standard's form.
fn code_field(value: &str) -> Option<CodeField<'_>>
    ensures none { IfNone result (is_code value.now ≡ false) }
    ensures some { IfSome result (λ f. is_code value.now ≡ true) }
    ensures digits { IfSome result (λ f. f.digits.now ≡ code_digits value.now) }
    ensures names { IfSome result
        (λ f. excluded_names (value_text f.names) ≡ excluded_by value.now) }
{
    let Some((digits, rest)) = value.split_at_checked(40) else {
        return None;
    };
    if !all_hex(digits.as_bytes()) {
        return None;
    }
    if rest.is_empty() {
        return Some(CodeField {
            digits,
            names: None,
        });
    }
    match list_inside(skip_blanks(rest)) {
        Some(inner) => Some(CodeField {
            digits,
            names: Some(names_in(inner)),
        }),
        None => None,
    }
}

/// Whether a value is a code (SPDX 2.3, clause 7.9): 40 hexadecimal digits, perhaps followed by
/// names of files in parentheses.
pub fn is_code(value: &str) -> bool
    ensures { result ≡ is_code value.now }
{
    code_field(value).is_some()
}

// The parts of a text between commas.
fn parts_of(alloc: Global, text: &str) -> Result<Vec<&str>, AllocError>
    ensures { IfOk result (λ v. texts v.items ≡ slice_split (λ b. b == 44) text.now) }
{
    text.split(',').collect(alloc)
}

// The names in some parts.
fn names_of<'a>(alloc: Global, parts: &[&'a str]) -> Result<Vec<&'a str>, AllocError>
    ensures { IfOk result (λ v. texts v.items
        ≡ map (λ part. plain (trimmed part)) (texts parts.now)) }
{
    let mut names = Vec::with_capacity(alloc, parts.len())?;
    for part in parts {
        names.push(plain(trim(part)))?;
    }
    Ok(names)
}

/// The names that a code excludes, if it has a list of them.
#[derive(Drop)]
pub(crate) struct Excluded<'a> {
    places: Option<Places<'a>>,
}

impl Excluded<'_> {
    fn has(&self, name: &str) -> bool
        ensures { result ≡ has_name self.now name.now }
    {
        match &self.places {
            Some(places) => places.get(name).is_some(),
            None => false,
        }
    }
}

// The names that a code excludes.
fn excluded_names<'a>(alloc: Global, text: Option<&'a str>) -> Result<Excluded<'a>, AllocError>
    ensures { IfOk result (λ e. (q : List ℕ) → has_name e q ≡ list_any (λ name. bytes_eq name q)
        (excluded_names (value_text text.entry))) }
{
    match text {
        Some(text) => {
            let parts = parts_of(alloc, text)?;
            let names = names_of(alloc, &parts)?;
            let places = Some(Places::of(alloc, names)?);
            Ok(Excluded { places })
        }
        None => Ok(Excluded { places: None }),
    }
}

fn digest_spelled(digits: Option<&str>) -> Option<[u8; 20]>
    ensures { result ≡ digest_spelled (value_text digits.entry) }
{
    match digits {
        Some(digits) => <[u8; 20] as FromHex>::from_hex(digits).ok(),
        None => None,
    }
}

// The file at a place.
fn file_at<'d, 'a>(files: &'d [FileEntry<'a>], place: usize) -> Option<&'d FileEntry<'a>>
    ensures { option_map (λ f. file_text f.now) result ≡ slice_get (map file_text files.now) place }
{
    if place < files.len() {
        Some(&files[place])
    } else {
        None
    }
}

// The digests of the files that aren't excluded, if each has one.
fn digests_of(
    alloc: Global,
    excluded: &Excluded,
    files: &[FileEntry],
    arrows: &[Arrow],
) -> Result<Option<Vec<[u8; 20]>>, AllocError>
    ensures { (names : List (List ℕ)) → ((q : List ℕ)
        → has_name excluded.now q ≡ list_any (λ name. bytes_eq name q) names)
        → IfOk result (λ ds. items_of ds
        ≡ digests_of names (files_at (map file_text files.now) arrows.now)) }
{
    let mut digests = Vec::new(alloc);
    for arrow in arrows {
        let Some(file) = file_at(files, arrow.to) else {
            continue;
        };
        if excluded.has(plain(file.name)) {
            continue;
        }
        match digest_spelled(file.sha1) {
            Some(digest) => digests.push(digest)?,
            None => return Ok(None),
        }
    }
    Ok(Some(digests))
}

/// Whether a `FilesAnalyzed` is false, ignoring case (SPDX 2.3, clause 7.8; absent means true).
pub fn is_unanalyzed(flag: Option<&str>) -> bool
    ensures { result ≡ is_unanalyzed (value_text flag.entry) }
{
    match flag {
        Some(flag) => flag.eq_ignore_ascii_case("false"),
        None => false,
    }
}

// Whether digits are those of a code, ignoring case.
fn is_same(digits: &str, code: &[u8; 40]) -> bool
    ensures { (ds : List ℕ) → code.now ≡ encode_lower ds
        → IsTrue result ↔ (folded digits.now ≡ code.now) }
{
    digits.as_bytes().eq_ignore_ascii_case(code)
}

// The parts of a code that can be checked.
fn checked_field<'a>(package: &Package, value: &'a str) -> Option<CodeField<'a>>
    ensures none { IfNone result (is_unanalyzed (value_text «package».now.files_analyzed) || not
        (is_code value.now) ≡ true) }
    ensures some { IfSome result
        (λ f. is_unanalyzed (value_text «package».now.files_analyzed) || not
        (is_code value.now) ≡ false) }
    ensures digits { IfSome result (λ f. f.digits.now ≡ code_digits value.now) }
    ensures names { IfSome result
        (λ f. excluded_names (value_text f.names) ≡ excluded_by value.now) }
{
    if is_unanalyzed(package.files_analyzed) {
        return None;
    }
    code_field(value)
}

// The digests that a code covers.
fn checked_digests(
    alloc: Global,
    names: Option<&str>,
    files: &[FileEntry],
    arrows: &[Arrow],
) -> Result<Option<Vec<[u8; 20]>>, AllocError>
    ensures { IfOk result (λ ds. items_of ds ≡ digests_of (excluded_names (value_text names.entry))
        (files_at (map file_text files.now) arrows.now)) }
{
    let excluded = excluded_names(alloc, names)?;
    let digests = digests_of(alloc, &excluded, files, arrows)?;
    Ok(digests)
}

// What the code that a package has says about its files.
fn state_of_code(
    alloc: Global,
    package: &Package,
    value: &str,
    files: &[FileEntry],
    arrows: &[Arrow],
) -> Result<CodeState, AllocError>
    requires { value_text «package».now.verification_code ≡ Some value.now }
    ensures { IfOk result (IsStateOf (package_text «package».now)
        (files_at (map file_text files.now) arrows.now)) }
{
    let Some(field) = checked_field(package, value) else {
        return Ok(CodeState::Unchecked);
    };
    let Some(digests) = checked_digests(alloc, field.names, files, arrows)? else {
        return Ok(CodeState::Unchecked);
    };
    let code = verification_code(alloc, &digests)?;
    if is_same(field.digits, &code) {
        Ok(CodeState::Agrees)
    } else {
        Ok(CodeState::Differs)
    }
}

fn package_at<'d, 'a>(document: &'d Document<'a>, place: usize) -> &'d Package<'a>
    requires { place < length document.now.packages }
    ensures { slice_get (document_text document.now).packages place
        ≡ Some (package_text result.now) }
{
    &document.packages.as_slice()[place]
}

impl Contents {
    ghost use Rattle.desk_bom.specs.Held.{Holds};

    /// What the code of a package says about its files; the package is one of the document whose
    /// files were collected, by its place among the packages.
    pub fn code_state(
        &self,
        alloc: Global,
        document: &Document,
        owner: usize,
    ) -> Result<CodeState, AllocError>
        requires held { Holds (document_text document.now) self.now }
        requires within { owner < length document.now.packages }
        ensures { IfOk result (IsState (document_text document.now) owner) }
    {
        let package = package_at(document, owner);
        match package.verification_code {
            Some(value) => {
                let files = document.files.as_slice();
                let state = state_of_code(alloc, package, value, files, self.files(owner))?;
                Ok(state)
            }
            None => Ok(CodeState::Absent),
        }
    }
}

/// What the code of a package says about its files (SPDX 2.3, clause 7.9), the package by its place
/// among the packages of the document. For many packages, it is better to collect their files once,
/// by `Contents`.
pub fn code_state(alloc: Global, document: &Document, owner: usize) -> Result<CodeState, AllocError>
    requires { owner < length document.now.packages }
    ensures { IfOk result (IsState (document_text document.now) owner) }
{
    let elements = Elements::of(alloc, document)?;
    let contents = Contents::of(alloc, document, &elements)?;
    let state = contents.code_state(alloc, document, owner)?;
    Ok(state)
}

/// A package's code has only one state.
pub fn one_state()
    ensures { (d : DocumentText) (owner : ℕ) (a b : CodeState) → IsState d owner a
        → IsState d owner b → a ≡ b }
{}
