//! The group of documents.

ghost use Rattle.std.specs.Prelude.{◌≡◌, ◌<◌, Some, slice_get, IfOk};
ghost use Rattle.group_rules.specs.declared.TheConstants.{DOC_COUNT};
ghost use Rattle.group_rules.specs.Group.{new_group};
ghost use Rattle.model_group.specs.State.{documents};

use group_rules::DOC_COUNT;
use model_core::Model as Document;
use std::alloc::{AllocError, Global};
use std::marker::Model;

/// 64 documents that are edited and undone together, numbered from 0 to 63. All exist from the start, and are empty.
///
/// A joint step is undone and redone in all its documents at once. Once one of them has lost it, it is an ordinary step of each of the
/// others.
#[derive(Drop)]
pub struct Group {
    pub(crate) alloc: Global,
    pub(crate) models: Vec<Document>,
}

impl Model for Group {
    ghost use Rattle.std.specs.Coded.{codes};
    ghost use Rattle.bracket_tree_rules.specs.TreeCode.{tree_code};
    ghost use Rattle.model_page.specs.Asked.{read_tree_code};
    ghost use Rattle.model_group.specs.State.{GroupState, IsGroup};

    ghost Value = { GroupState };

    ghost coded = { Prim.hlevel (codes, tree_code, read_tree_code) };

    ghost view = { λ g. g.models.items };

    ghost invariant = { λ g. IsGroup g.models.items };
}

impl Group {
    /// Makes 64 empty documents, each with version 1.
    pub fn new(alloc: Global) -> Result<Group, AllocError>
        ensures { IfOk result (λ group. documents group ≡ new_group) }
    {
        let mut models = Vec::with_capacity(alloc, DOC_COUNT as usize)?;
        for _ in 0..DOC_COUNT {
            models.push(Document::new(alloc))?;
        }
        Ok(Group { alloc, models })
    }

    /// Returns the document of this number. Allocates nothing.
    pub fn doc(&self, n: u64) -> &Document
        requires { n < DOC_COUNT }
        ensures { slice_get self.now n ≡ Some result.now }
    {
        &self.models[n as usize]
    }
}
