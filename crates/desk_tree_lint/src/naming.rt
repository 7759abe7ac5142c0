//! How licences are written where they are first named.

ghost use Rattle.std.specs.Prelude.{◌≡◌, ◌++◌, ◌∷◌, [], ◌<◌, ◌==◌, ℕ, true, false, List, length, slice_index_or, IfOk, IfSome, IfNone, OnOk, map, option_map};
ghost use Rattle.std.specs.Cmp.Lexicographic.{slice_cmp};
ghost use Rattle.std.specs.List.{flat_map, list_any, slice_split};
ghost use Rattle.std.specs.List.Sorted.{IsStrictlySortedBy};
ghost use Rattle.std.specs.Ordering.{nat_cmp};
ghost use Rattle.desk_base.specs.Borrowed.{texts, texts_in};
ghost use Rattle.desk_base.specs.TextSets.{is_among};
ghost use Rattle.desk_model.specs.Texts.{sorted_set};
ghost use Rattle.desk_tree_infos.specs.Firsts.{first_in, firsts_of};
ghost use Rattle.desk_tree_infos.specs.declared.infos.FileInfo.{FileInfo};
ghost use Rattle.desk_tree_infos.specs.declared.information.Subject.TheVariants.{Licences};
ghost use Rattle.desk_tree_lint.specs.Naming.{is_separator, cut_at, runs, is_operator, ids_in, mention, MentionText, mentions_by, first_with, name_by, name_of};
ghost use Rattle.desk_tree_lint.specs.declared.naming.Asked.{Asked};
ghost use Rattle.desk_tree_lint.specs.Firsts.{mention_in, asked_in, asked_of, keys_asked, Holds, first_mentions};

use crate::names::Names;
use crate::ordering::{are_in_order, sorted_keys};
use crate::path::SharedPath;
use crate::texts::key_of;
use desk_base::{Text, TextList};
use desk_tokens::without_plus;
use desk_tree_annotations::SharedText;
use desk_tree_gather::First;
use std::alloc::{AllocError, Global};

// For how many keys at once the first mentions are kept, because they take much memory: if there
// are more keys, the licences are gone through again.
const ASKED_MOST: usize = 524_288;

/// How a licence, an exception or a reference is shown.
#[derive(Drop)]
pub struct Name {
    /// The identifier as it was first written.
    pub id: Text,
    /// The first file that names it.
    pub path: Option<Text>,
}

// An identifier and the file that names it.
#[derive(Drop)]
pub(crate) struct Mention<'a> {
    pub(crate) id: &'a str,
    pub(crate) path: SharedPath,
}

// A key that is asked for, and its first mention so far.
#[derive(Drop)]
pub(crate) struct Asked<'k, 'a> {
    pub(crate) key: &'k str,
    pub(crate) first: Option<Mention<'a>>,
}

// What is between the separators of a text.
fn pieces(alloc: Global, text: &str, separator: char) -> Result<Vec<&str>, AllocError>
    requires { separator < 128 }
    ensures { IfOk result (λ v. texts_in v ≡ slice_split (λ b. b == separator) text.now) }
{
    text.split(separator).collect(alloc)
}

// The pieces of each of some texts.
fn cut_at<'a>(
    alloc: Global,
    listed: &[&'a str],
    separator: char,
) -> Result<Vec<&'a str>, AllocError>
    requires { separator < 128 }
    ensures { IfOk result (λ v. texts_in v ≡ cut_at separator (texts listed.now)) }
{
    let mut cut = Vec::new(alloc);
    for text in listed {
        let mut parts = pieces(alloc, text, separator)?;
        cut.append(&mut parts)?;
    }
    Ok(cut)
}

// What is between blanks and parentheses.
fn runs(alloc: Global, licence: &str) -> Result<Vec<&str>, AllocError>
    ensures { IfOk result (λ v. texts_in v ≡ runs licence.now) }
{
    let between_blanks = cut_at(alloc, &[licence], ' ')?;
    let between_tabs = cut_at(alloc, between_blanks.as_slice(), '\t')?;
    let behind_openings = cut_at(alloc, between_tabs.as_slice(), '(')?;
    cut_at(alloc, behind_openings.as_slice(), ')')
}

// Whether a licence has a blank or a parenthesis.
fn is_divided(licence: &[u8]) -> bool
    ensures { result ≡ list_any is_separator licence.now }
{
    licence
        .iter()
        .any(|byte| matches!(byte, b' ' | b'\t' | b'(' | b')'))
}

fn is_operator(run: &str) -> bool
    ensures { result ≡ is_operator run.now }
{
    run == "AND" || run == "OR" || run == "WITH"
}

// The keys with no mentions.
fn unmentioned_keys<'k, 'a>(
    alloc: Global,
    keys: &[&'k str],
) -> Result<Vec<Asked<'k, 'a>>, AllocError>
    ensures { IfOk result (λ v. map asked_in v.items ≡ asked_of (texts keys.now) []) }
{
    let mut asked = Vec::with_capacity(alloc, keys.len())?;
    for key in keys {
        asked.push(Asked {
            key: *key,
            first: None,
        })?;
    }
    Ok(asked)
}

// The keys in their order, with no mentions.
fn unmentioned_of<'k, 'a>(
    alloc: Global,
    keys: &'k TextList,
) -> Result<Vec<Asked<'k, 'a>>, AllocError>
    ensures { IfOk result (λ v. map asked_in v.items ≡ asked_of keys.now []) }
{
    let mut asked = Vec::with_capacity(alloc, keys.len())?;
    for place in 0..keys.len() {
        asked.push(Asked {
            key: keys.at(place),
            first: None,
        })?;
    }
    Ok(asked)
}

// The keys in byte order, each once, with no mentions. Keys that are in this order, of which a tree
// may have very many, aren't listed once more.
fn asked_for<'k, 'a>(alloc: Global, keys: &'k TextList) -> Result<Vec<Asked<'k, 'a>>, AllocError>
    ensures { IfOk result (λ v. map asked_in v.items ≡ asked_of (sorted_set keys.now) []) }
{
    if are_in_order(keys) {
        return unmentioned_of(alloc, keys);
    }
    let ordered = sorted_keys(alloc, keys)?;
    unmentioned_keys(alloc, ordered.as_slice())
}

// Whether a key is the one that is asked for at a place.
fn is_at(asked: &[Asked<'_, '_>], place: usize, key: &str) -> bool
    ensures { result ≡ true → (place < length asked.now)
        × ((a : Asked) → (slice_index_or asked.now place a).key.now ≡ key.now) }
{
    place < asked.len() && asked[place].key == key
}

// The place of a key among those that are asked for: a near one is tried first, because keys that
// follow one another in a tree often do so here.
fn place_of(asked: &[Asked<'_, '_>], near: usize, key: &str) -> Option<usize>
    ensures found { IfSome result (λ i. (i < length asked.now)
        × ((a : Asked) → (slice_index_or asked.now i a).key.now ≡ key.now)) }
    ensures none { IfNone result (IsStrictlySortedBy (slice_cmp nat_cmp) (keys_asked asked.now)
        → is_among (keys_asked asked.now) key.now ≡ false) }
{
    if is_at(asked, near, key) {
        return Some(near);
    }
    match asked.binary_search_by(|one| one.key.cmp(key)) {
        Ok(place) => Some(place),
        Err(_) => None,
    }
}

// Keeps a mention after others, if its key is asked for and none of them has it.
fn keep<'a>(
    alloc: Global,
    asked: &mut [Asked<'_, 'a>],
    near: &mut usize,
    path: &SharedPath,
    id: &'a str,
) -> Result<(), AllocError>
    ensures { OnOk result ((keys : List (List ℕ)) (ms : List MentionText)
        → Holds keys ms asked.old → Holds keys (ms ++ mention path.now id.now ∷ []) asked.new) }
{
    let key = key_of(alloc, id)?;
    let Some(place) = place_of(asked, *near, key.as_str()) else {
        return Ok(());
    };
    *near = place.saturating_add(1);
    if asked[place].first.is_some() {
        return Ok(());
    }
    let path = path.clone()?;
    asked[place].first = Some(Mention { id, path });
    Ok(())
}

// Keeps the mention in a run of a licence after others, if the run isn't an operator.
fn keep_run<'a>(
    alloc: Global,
    asked: &mut [Asked<'_, 'a>],
    near: &mut usize,
    path: &SharedPath,
    run: &'a str,
) -> Result<(), AllocError>
    ensures { OnOk result ((keys : List (List ℕ)) (ms : List MentionText) → Holds keys ms asked.old
        → Holds keys (ms ++ map (mention path.now) (ids_in (run.now ∷ []))) asked.new) }
{
    if is_operator(run) {
        return Ok(());
    }
    keep(alloc, asked, near, path, without_plus(run))
}

// Keeps the mentions in runs after others.
fn keep_runs<'a>(
    alloc: Global,
    asked: &mut [Asked<'_, 'a>],
    near: &mut usize,
    path: &SharedPath,
    runs: &[&'a str],
) -> Result<(), AllocError>
    ensures { OnOk result ((keys : List (List ℕ)) (ms : List MentionText) → Holds keys ms asked.old
        → Holds keys (ms ++ map (mention path.now) (ids_in (texts runs.now))) asked.new) }
{
    for run in runs {
        keep_run(alloc, asked, near, path, *run)?;
    }
    Ok(())
}

// Keeps the mentions in a licence of a file after others. Most licences are one run.
fn keep_licence<'a>(
    alloc: Global,
    asked: &mut [Asked<'_, 'a>],
    near: &mut usize,
    path: &SharedPath,
    licence: &'a str,
) -> Result<(), AllocError>
    ensures { OnOk result ((keys : List (List ℕ)) (ms : List MentionText) → Holds keys ms asked.old
        → Holds keys (ms ++ mentions_by path.now licence.now) asked.new) }
{
    if is_divided(licence.as_bytes()) {
        let runs = runs(alloc, licence)?;
        return keep_runs(alloc, asked, near, path, runs.as_slice());
    }
    keep_run(alloc, asked, near, path, licence)
}

// Keeps the mentions in a file's licences after others.
fn keep_licences<'a>(
    alloc: Global,
    asked: &mut [Asked<'_, 'a>],
    near: &mut usize,
    path: &SharedPath,
    licences: &'a [SharedText],
) -> Result<(), AllocError>
    ensures { OnOk result ((keys : List (List ℕ)) (ms : List MentionText)
        → Holds keys ms asked.old
        → Holds keys (ms ++ flat_map (mentions_by path.now) licences.now) asked.new) }
{
    for licence in licences {
        keep_licence(alloc, asked, near, path, licence.as_str())?;
    }
    Ok(())
}

// Keeps the first mention of each key in the licences that files have first.
fn keep_firsts<'a>(
    alloc: Global,
    asked: &mut [Asked<'_, 'a>],
    listed: &'a [First<'_>],
) -> Result<(), AllocError>
    ensures { OnOk result ((keys : List (List ℕ)) → Holds keys [] asked.old
        → Holds keys (first_mentions (map first_in listed.now)) asked.new) }
{
    let mut near = 0;
    for first in listed {
        let path = SharedPath::of(alloc, first.path)?;
        keep_licences(alloc, asked, &mut near, &path, first.texts.as_slice())?;
    }
    Ok(())
}

// The first mention that is kept for a key.
fn first_of<'s, 'a>(asked: &'s [Asked<'_, 'a>], near: usize, key: &str) -> Option<&'s Mention<'a>>
    ensures { (keys : List (List ℕ)) (ms : List MentionText) → Holds keys ms asked.now
        → is_among keys key.now ≡ true
        → option_map (λ m. mention_in m.now) result ≡ first_with key.now ms }
{
    match place_of(asked, near, key) {
        Some(place) => asked[place].first.as_ref(),
        None => None,
    }
}

// Adds what a key is shown by.
fn add_name(names: &mut Names, key: &str, first: Option<&Mention<'_>>) -> Result<(), AllocError>
    ensures { OnOk result (names.new
        ≡ names.old ++ name_by key.now (option_map (λ m. mention_in m.now) first.entry) ∷ []) }
{
    match first {
        Some(mention) => {
            let path = mention.path.clone()?;
            names.push(mention.id, Some(path))
        }
        None => names.push(key, None),
    }
}

// Adds what keys are shown by, if the first mention of each is known.
fn add_names(asked: &[Asked<'_, '_>], keys: &TextList, names: &mut Names) -> Result<(), AllocError>
    ensures { (all : List (List ℕ)) (ms : List MentionText) → Holds all ms asked.now
        → ((key : List ℕ) → is_among keys.now key ≡ true → is_among all key ≡ true)
        → OnOk result (names.new
        ≡ names.old ++ map (λ key. name_by key (first_with key ms)) keys.now) }
{
    for place in 0..keys.len() {
        let key = keys.at(place);
        add_name(names, key, first_of(asked, place, key))?;
    }
    Ok(())
}

// Adds how keys are written where files first name them.
fn add_named(
    alloc: Global,
    firsts: &[First<'_>],
    keys: &TextList,
    names: &mut Names,
) -> Result<(), AllocError>
    ensures { (infos : List FileInfo) → map first_in firsts.now ≡ firsts_of Licences infos
        → OnOk result (names.new ≡ names.old ++ map (name_of infos) keys.now) }
{
    let mut asked = asked_for(alloc, keys)?;
    keep_firsts(alloc, asked.as_mut_slice(), firsts)?;
    add_names(asked.as_slice(), keys, names)
}

// Names the keys of a part and begins another, if the part has as many as are asked for at once.
fn end_part(
    alloc: Global,
    firsts: &[First<'_>],
    part: &mut TextList,
    names: &mut Names,
) -> Result<(), AllocError>
    ensures { (infos : List FileInfo) → map first_in firsts.now ≡ firsts_of Licences infos
        → OnOk result (names.new ++ map (name_of infos) part.new
        ≡ names.old ++ map (name_of infos) part.old) }
{
    if part.len() < ASKED_MOST {
        return Ok(());
    }
    add_named(alloc, firsts, part, names)?;
    *part = TextList::new(alloc);
    Ok(())
}

// Adds how keys are written, part by part.
fn add_parts(
    alloc: Global,
    firsts: &[First<'_>],
    keys: &TextList,
    names: &mut Names,
) -> Result<(), AllocError>
    ensures { (infos : List FileInfo) → map first_in firsts.now ≡ firsts_of Licences infos
        → OnOk result (names.new ≡ names.old ++ map (name_of infos) keys.now) }
{
    let mut part = TextList::new(alloc);
    for place in 0..keys.len() {
        end_part(alloc, firsts, &mut part, names)?;
        part.push(keys.at(place))?;
    }
    add_named(alloc, firsts, &part, names)
}

/// How keys are written where files first name them, each with the first file, from the licences
/// that the files have first. The only error is lack of memory.
pub fn names_of(alloc: Global, firsts: &[First<'_>], keys: &TextList) -> Result<Names, AllocError>
    ensures { (infos : List FileInfo) → map first_in firsts.now ≡ firsts_of Licences infos
        → IfOk result (λ names. names ≡ map (name_of infos) keys.now) }
{
    let mut names = Names::new(alloc);
    if keys.len() <= ASKED_MOST {
        add_named(alloc, firsts, keys, &mut names)?;
    } else {
        add_parts(alloc, firsts, keys, &mut names)?;
    }
    Ok(names)
}
