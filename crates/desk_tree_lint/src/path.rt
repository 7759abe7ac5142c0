//! Paths with several holders.

ghost use Rattle.std.specs.Prelude.{◌≡◌, IfOk};

use desk_base::Text;
use std::alloc::{AllocError, Global};
use std::marker::Model;
use std::rc::Rc;

/// A path that may have several holders, seen as its bytes. A clone takes no memory for it.
#[derive(Drop)]
pub(crate) struct SharedPath {
    path: Rc<Text>,
}

impl Model for SharedPath {
    ghost use Rattle.std.specs.Prelude.{List, ℕ};

    ghost Value = { List ℕ };

    ghost view = { λ p. p.path.value };
}

impl SharedPath {
    /// A copy of the path.
    pub(crate) fn of(alloc: Global, path: &str) -> Result<SharedPath, AllocError>
        ensures { IfOk result (λ p. p ≡ path.now) }
    {
        let path = Text::of(alloc, path)?;
        Ok(SharedPath {
            path: Rc::new(alloc, path)?,
        })
    }

    /// The path itself.
    pub(crate) fn as_str(&self) -> &str
        ensures { result.now ≡ self.now }
    {
        self.path.as_str()
    }
}

impl Clone for SharedPath {
    ghost is_clone = { λ a b. b ≡ a };

    fn clone(&self) -> Result<SharedPath, AllocError> {
        Ok(SharedPath {
            path: self.path.clone()?,
        })
    }
}
