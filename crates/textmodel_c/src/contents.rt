//! What a handle holds.

ghost use Rattle.std.specs.Prelude.{◌≡◌, ◌<◌, IfOk};
ghost use Rattle.group_rules.specs.declared.TheConstants.{DOC_COUNT};
ghost use Rattle.textmodel_c.specs.Documents.{document_in};
ghost use Rattle.textmodel_c.specs.Told.{IsNew};

use crate::telling::Telling;
use model_core::Model;
use model_group::Group;
use sessions::{Outcome, Reply, Session};
use std::alloc::{AllocError, Global};

/// A session, the reply to the last script line, and the progress of `tm_next_change`.
#[derive(Drop)]
pub struct Contents {
    pub session: Session,
    pub reply: Outcome,
    pub telling: Option<Telling>,
}

impl Contents {
    /// Makes a session of empty documents.
    pub(crate) fn new(alloc: Global) -> Result<Box<Contents>, AllocError>
        ensures { IfOk result (λ new. IsNew new.value) }
    {
        let contents = Contents {
            session: Session::new(alloc)?,
            reply: Ok(Reply::Nothing),
            telling: None,
        };
        Box::new(alloc, contents).map_err(|_| AllocError)
    }

    /// Returns the document of this number.
    pub(crate) fn document(&self, doc: u64) -> &Model
        requires { doc < DOC_COUNT }
        ensures { result.now.document ≡ document_in self.now.session.group doc }
    {
        document(&self.session.group, doc)
    }
}

/// Returns the document of this number.
pub(crate) fn document(group: &Group, doc: u64) -> &Model
    requires { doc < DOC_COUNT }
    ensures { result.now.document ≡ document_in group.now doc }
{
    group.doc(doc)
}
