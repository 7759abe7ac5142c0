//! Notices, each once.

ghost use Rattle.std.specs.Prelude.{◌≡◌, [], IfOk, OnOk, map};
ghost use Rattle.desk_credits.specs.Notices.{IsKnown, stated_notice, with_notice, with_notices};

use crate::notice::Notice;
use desk_base::Text;
use desk_fill::says_something;
use desk_tree_annotations::SharedText;
use std::alloc::{AllocError, Global};
use std::collections::BTreeSet;

/// Notices in the order of first use.
#[derive(Drop)]
pub(crate) struct Known {
    pub(crate) notices: Vec<Notice>,
    // Their texts.
    texts: BTreeSet<String>,
}

/// No notices.
pub(crate) fn no_notices(alloc: Global) -> Known
    ensures notices { result.notices.items ≡ [] }
    ensures known { IsKnown result }
{
    Known {
        notices: Vec::new(alloc),
        texts: BTreeSet::new(alloc),
    }
}

impl Known {
    /// Adds a notice, unless its text is there or says nothing.
    pub(crate) fn add(&mut self, alloc: Global, notice: Notice) -> Result<(), AllocError>
        requires { IsKnown self.old }
        ensures known { OnOk result (IsKnown self.new) }
        ensures added { OnOk result (self.new.notices.items
            ≡ with_notice self.old.notices.items notice) }
    {
        let text = notice.text.as_str();
        if !says_something(text) || self.texts.contains(text) {
            return Ok(());
        }
        let key = String::from_str(alloc, text)?;
        self.texts.insert(key)?;
        self.notices.push(notice)?;
        Ok(())
    }

    /// Adds the notices that a tag or a REUSE.toml states.
    pub(crate) fn add_stated(
        &mut self,
        alloc: Global,
        texts: &[SharedText],
    ) -> Result<(), AllocError>
        requires { IsKnown self.old }
        ensures known { OnOk result (IsKnown self.new) }
        ensures added { OnOk result (self.new.notices.items
            ≡ with_notices self.old.notices.items (map stated_notice texts.now)) }
    {
        for text in texts {
            let text = Text::of(alloc, text.as_str())?;
            self.add(alloc, Notice { text, place: None })?;
        }
        Ok(())
    }
}
