//! Names, kept together.

ghost use Rattle.std.specs.Prelude.{◌≡◌, ◌<◌, ◌++◌, ◌∷◌, [], length, slice_index_or, OnOk};
ghost use Rattle.desk_tree_lint.specs.Shown.{name_at};

use crate::path::SharedPath;
use desk_base::TextList;
use std::alloc::{AllocError, Global};
use std::marker::Model;

/// A name in a list.
#[derive(Clone, Copy)]
pub struct NameAt<'a> {
    /// The identifier as it was first written.
    pub id: &'a str,
    /// The first file that names it.
    pub path: Option<&'a str>,
}

/// An owned list of names, seen as that list. The identifiers are in one buffer, and names of one
/// file share its path.
#[derive(Drop)]
pub struct Names {
    ids: TextList,
    paths: Vec<Option<SharedPath>>,
}

impl Model for Names {
    ghost use Rattle.std.specs.Prelude.{◌≡◌, List, length};
    ghost use Rattle.desk_tree_lint.specs.declared.naming.Name.{Name};
    ghost use Rattle.desk_tree_lint.specs.Names.{names_in};

    ghost Value = { List Name };

    ghost view = { λ n. names_in n.ids n.paths.items };

    ghost invariant = { λ n. length n.ids ≡ length n.paths.items };
}

impl Names {
    /// The list of nothing.
    pub(crate) fn new(alloc: Global) -> Names
        ensures { result ≡ [] }
    {
        Names {
            ids: TextList::new(alloc),
            paths: Vec::new(alloc),
        }
    }

    /// How many names there are.
    pub fn len(&self) -> usize
        ensures { result ≡ length self.now }
    {
        self.paths.len()
    }

    /// The name at a place, from 0.
    pub fn at(&self, place: usize) -> NameAt<'_>
        requires { place < length self.now }
        ensures { name_at result ≡ slice_index_or self.now place (name_at result) }
    {
        let id = self.ids.at(place);
        match &self.paths[place] {
            Some(path) => NameAt {
                id,
                path: Some(path.as_str()),
            },
            None => NameAt { id, path: None },
        }
    }

    /// Adds a name at the end.
    pub(crate) fn push(&mut self, id: &str, path: Option<SharedPath>) -> Result<(), AllocError>
        ensures { OnOk result (self.new ≡ self.old ++ (record { id = id.now; path = path }) ∷ []) }
    {
        // Room for the path is reserved first, so that the identifier is never added without it.
        self.paths.reserve(1)?;
        self.ids.push(id)?;
        self.paths.push(path)?;
        Ok(())
    }
}
