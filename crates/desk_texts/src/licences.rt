//! The texts of licences and exceptions in a catalogue.

ghost use Rattle.std.specs.Prelude.{◌≡◌, ◌++◌, ◌∷◌, [], ℕ, List, Option, Some, None, IfOk, OnOk, find, map, slice_get};
ghost use Rattle.std.specs.Option.{option_map};
ghost use Rattle.desk_base.specs.Folded.{folded};
ghost use Rattle.desk_catalogue.specs.Kept.{is_text_of};
ghost use Rattle.desk_catalogue.specs.Reading.{catalogue_of};
ghost use Rattle.desk_catalogue.specs.Terms.{ReadsTerms};
ghost use Rattle.desk_texts.specs.Catalogues.{AreTaken, kept_text, licence_text_in, place_in, text_in};

use desk_base::{Items, Key};
use desk_catalogue::{CatFault, Catalogue};
use desk_model::LicenceText;
use std::alloc::{AllocError, Global};
use std::collections::BTreeMap;

/// Texts by their ids. Among texts with the same id, the first is kept.
fn by_id(
    alloc: Global,
    texts: Vec<desk_catalogue::LicenceText>,
) -> Result<BTreeMap<Key, LicenceText>, AllocError>
    ensures { IfOk result (λ map. (id : List ℕ)
        → text_in map id ≡ option_map kept_text (find (is_text_of id) texts.items)) }
{
    let mut left = texts;
    let mut map = BTreeMap::new(alloc);
    while let Some(text) = left.pop() {
        let id = Key::folded(alloc, text.licence.as_str())?;
        let kept = LicenceText {
            title: text.licence,
            body: text.body,
        };
        map.insert(id, kept)?;
    }
    Ok(map)
}

/// The texts of the catalogue that a text is, by their ids, or none if it isn't a catalogue.
fn licences_of(alloc: Global, text: &str) -> Result<BTreeMap<Key, LicenceText>, AllocError>
    ensures { (terms : List ℕ → Option (List ℕ)) → ReadsTerms terms → IfOk result (λ texts.
        (id : List ℕ) → text_in texts id ≡ licence_text_in (catalogue_of terms text.now) id) }
{
    match Catalogue::read(alloc, text) {
        Ok(read) => {
            let Catalogue { texts, .. } = read;
            by_id(alloc, texts.into_vec())
        }
        Err(CatFault::Refused(_)) => Ok(BTreeMap::new(alloc)),
        Err(CatFault::Memory(error)) => Err(error),
    }
}

/// A copy of the text at a place.
fn copy_at(found: &[Option<LicenceText>], place: usize) -> Result<Option<LicenceText>, AllocError>
    ensures { IfOk result (λ copy. (x : Option LicenceText) → slice_get found.now place ≡ Some x
        → copy ≡ x) }
{
    match found.get(place) {
        Some(Some(text)) => Ok(Some(LicenceText {
            title: text.title.clone()?,
            body: text.body.clone()?,
        })),
        _ => Ok(None),
    }
}

/// The texts that were found, and those that remain. Since a body may be large, each is moved when
/// it is first asked for, and copied from its new place when it is asked for again.
#[derive(Drop)]
pub(crate) struct Taken {
    pub(crate) left: BTreeMap<Key, LicenceText>,
    pub(crate) places: BTreeMap<Key, usize>,
    pub(crate) found: Items<Option<LicenceText>>,
}

impl Taken {
    /// Adds the text of an id that was asked for before, by its place.
    fn copy(&mut self, place: usize) -> Result<(), AllocError>
        ensures { (texts : List ℕ → Option LicenceText) (ids : List (List ℕ)) (id : List ℕ)
            → AreTaken texts ids self.old → place_in self.old.places id ≡ Some place
            → OnOk result (AreTaken texts (ids ++ id ∷ []) self.new) }
    {
        let text = copy_at(self.found.as_slice(), place)?;
        self.found.push(text)
    }

    /// Adds the text of an id that was not.
    fn take(&mut self, key: Key) -> Result<(), AllocError>
        ensures { (texts : List ℕ → Option LicenceText) (ids : List (List ℕ)) (id : List ℕ)
            → AreTaken texts ids self.old → key ≡ folded id → place_in self.old.places id ≡ None
            → OnOk result (AreTaken texts (ids ++ id ∷ []) self.new) }
    {
        let text = self.left.remove(&key);
        self.places.insert(key, self.found.as_slice().len())?;
        self.found.push(text)
    }

    /// Adds the text of an id in any case.
    fn add(&mut self, alloc: Global, id: &str) -> Result<(), AllocError>
        ensures { (texts : List ℕ → Option LicenceText) (ids : List (List ℕ))
            → AreTaken texts ids self.old → OnOk result
            (AreTaken texts (ids ++ id.now ∷ []) self.new) }
    {
        let key = Key::folded(alloc, id)?;
        match self.places.get(&key).copied() {
            Some(place) => self.copy(place),
            None => self.take(key),
        }
    }
}

/// The texts of licences and exceptions in the catalogue that a text is, by their ids in any case.
pub(crate) fn licence_texts(
    alloc: Global,
    text: &str,
    ids: &[&str],
) -> Result<Items<Option<LicenceText>>, AllocError>
    ensures { (terms : List ℕ → Option (List ℕ)) → ReadsTerms terms → IfOk result (λ found.
        found ≡ map (λ id. licence_text_in (catalogue_of terms text.now) id.now) ids.now) }
{
    let mut taken = Taken {
        left: licences_of(alloc, text)?,
        places: BTreeMap::new(alloc),
        found: Items::new(alloc),
    };
    for id in ids {
        taken.add(alloc, *id)?;
    }
    Ok(taken.found)
}
