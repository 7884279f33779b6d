//! Carries out prepared changes.

ghost use Rattle.std.specs.Prelude.{◌≡◌, length};
ghost use Rattle.std.specs.List.{All};
ghost use Rattle.group_rules.specs.declared.TheConstants.{DOC_COUNT};
ghost use Rattle.model_group.specs.Prepared.{AreApart, CanIn, CommitAll, Does, IsReadyIn, acts_in};
ghost use Rattle.model_group.specs.State.{OnDoc};

use model_core::{Model, Ready, Tag};

/// A prepared change of this document.
#[derive(Drop)]
pub(crate) struct DocReady {
    pub doc: u64,
    pub ready: Ready,
}

/// How a change is made.
#[derive(Clone, Copy)]
pub(crate) enum Manner {
    /// By the rule: an edit may join the step before it.
    Plain,
    /// As a step of its own.
    Alone,
    /// As a step of its own, with this tag.
    Joint(Tag),
}

/// Carries out all prepared changes.
pub(crate) fn commit_all(models: &mut [Model], ready: Vec<DocReady>, manner: Manner)
    requires count { length models.old ≡ DOC_COUNT }
    requires apart { AreApart ready.items }
    requires each { All (IsReadyIn (CanIn manner) models.old) ready.items }
    ensures { CommitAll (acts_in manner) ready.items models.old models.new }
{
    for one in ready {
        commit_step(models, one, manner);
    }
}

/// Carries out one prepared change.
pub(crate) fn commit_step(models: &mut [Model], one: DocReady, manner: Manner)
    requires count { length models.old ≡ DOC_COUNT }
    requires ready { IsReadyIn (CanIn manner) models.old one }
    ensures { OnDoc one.doc (Does (acts_in manner) one.ready.action) models.old models.new }
{
    let model = &mut models[one.doc as usize];
    match manner {
        Manner::Plain => model.commit(one.ready),
        Manner::Alone => model.commit_alone(one.ready),
        Manner::Joint(tag) => {
            model.commit_alone(one.ready);
            model.tag_last(tag);
        }
    }
}
