//! Joint edits: batches in several documents, all or none.

ghost use Rattle.std.specs.Prelude.{◌≡◌, ◌<◌, ◌≤◌, true, false, Some, None, length, map, IfOk, IfErr, OnOk, if◌then◌else◌};
ghost use Rattle.std.specs.List.{All};
ghost use Rattle.group_rules.specs.declared.TheConstants.{DOC_COUNT};
ghost use Rattle.group_rules.specs.Joint.{flat_batch, docs_of, names_badly, joint_refusal, members_of, least_of, tag_of, group_joint};
ghost use Rattle.group_rules.specs.Outcomes.{ChangesAll, IsRefusedFor};
ghost use Rattle.group_rules.specs.Together.{Stay, AllGoOn, named_by, reached_by_joint};
ghost use Rattle.model_group.specs.Calls.{AllJoin};
ghost use Rattle.model_group.specs.State.{KeepAll, OnDoc, documents};
ghost use Rattle.model_core.specs.Prepared.{PreparesEdit};
ghost use Rattle.model_group.specs.Prepared.{AreBatchesReady, Prepares, cause, first_of};

use crate::errors::group_error_of;
use crate::group::Group;
use crate::losing::lose_redo_of;
use crate::members::Members;
use crate::ready::{DocReady, Manner, commit_all};
use document_rules::ModelError;
use group_rules::{DOC_COUNT, DocBatch, GroupError};
use model_core::{Op, Ready, Tag};

impl Group {
    /// Carries out one batch in each of several documents, all or none. Each document gets its own step of undo; these steps are undone and
    /// redone together. `Unknown` if a document number is above 63 or repeated; else `Range` if a span is invalid; else `Overlap` if two
    /// spans of a batch overlap; else `Limit` if a new text or a version would pass its limit. All memory is allocated before the first
    /// change.
    pub fn joint(&mut self, batches: Vec<DocBatch>) -> Result<(), GroupError>
        requires several { 2 ≤ length batches.items }
        requires some { All (λ b. 0 < length b.ops.items) batches.items }
        ensures documents { ChangesAll result (documents self.old) (documents self.new)
            (group_joint (documents self.old) (map flat_batch batches.items)) }
        ensures models { AllJoin (map flat_batch batches.items) result self.old self.new }
        ensures stay { Stay (reached_by_joint (documents self.old) (map flat_batch batches.items))
            (documents self.old) (documents self.new) }
        ensures all { OnOk result (AllGoOn (named_by (map flat_batch batches.items))
            (documents self.old) (documents self.new)) }
    {
        let members = members_of(&batches).ok_or(GroupError::Unknown)?;
        let tag = self.tag_of(&batches, members);
        let ready = self.prepare_batches(batches)?;
        let models = self.models.as_mut_slice();
        lose_redo_of(models, &ready, members);
        commit_all(models, ready, Manner::Joint(tag));
        Ok(())
    }

    // Returns the tag for the step of these batches.
    fn tag_of(&self, batches: &[DocBatch], members: Members) -> Tag
        requires some { 0 < length batches.now }
        requires named { names_badly (docs_of (map flat_batch batches.now)) ≡ false }
        requires members { members ≡ members_of (map flat_batch batches.now) }
        ensures { result ≡ tag_of (documents self.now) (map flat_batch batches.now) }
    {
        let least = least_of(batches);
        Tag {
            least,
            version: self.models[least as usize].versions().0 + 1,
            members: members.bits(),
        }
    }

    // Prepares each batch. Of several errors returns the first by `cause`.
    #[tactic(auto, using(crate::proofs::Committing::keep_same))]
    fn prepare_batches(&mut self, batches: Vec<DocBatch>) -> Result<Vec<DocReady>, GroupError>
        requires { names_badly (docs_of (map flat_batch batches.items)) ≡ false }
        ensures count { length self.old ≡ DOC_COUNT }
        ensures kept { KeepAll self.old self.new }
        ensures ready { IfOk result
            (λ ready. AreBatchesReady self.new (map flat_batch batches.items) ready.items) }
        ensures accepted { IfOk result (λ ready.
            joint_refusal (documents self.old) (map flat_batch batches.items) ≡ None) }
        ensures refused { IfErr result (λ e. IsRefusedFor e
            (group_joint (documents self.old) (map flat_batch batches.items))) }
    {
        let mut ready = Vec::with_capacity(self.alloc, batches.len()).map_err(
            |_| GroupError::Memory,
        )?;
        let mut refusal = None;
        for batch in batches {
            let doc = batch.doc;
            match self.prepare_batch(doc, batch.ops) {
                Ok(one) => ready
                    .push(DocReady { doc, ready: one })
                    .map_err(|_| GroupError::Memory)?,
                Err(error) => refusal = Some(first_of(refusal, error)),
            }
        }
        match refusal {
            Some(error) => Err(group_error_of(error)),
            None => Ok(ready),
        }
    }

    pub(crate) fn prepare_batch(&mut self, doc: u64, ops: Vec<Op>) -> Result<Ready, ModelError>
        requires { doc < DOC_COUNT }
        ensures { OnDoc doc (Prepares (PreparesEdit ops.items result)) self.old self.new }
    {
        self.models[doc as usize].prepare(ops)
    }
}

/// Returns whether a number is above 63 or repeated.
pub fn names_badly(docs: &[u64]) -> bool
    ensures { result ≡ names_badly docs.now }
{
    let mut members = Members::none();
    for doc in docs {
        match members.more(*doc) {
            Some(more) => members = more,
            None => return true,
        }
    }
    false
}

// Returns the set of the documents; None if a number is out of range or repeated.
fn members_of(batches: &[DocBatch]) -> Option<Members>
    ensures { result ≡ if names_badly (docs_of (map flat_batch batches.now)) then None
        else Some (members_of (map flat_batch batches.now)) }
{
    let mut members = Members::none();
    for batch in batches {
        members = members.more(batch.doc)?;
    }
    Some(members)
}

fn least_of(batches: &[DocBatch]) -> u64
    ensures { result ≡ least_of (map flat_batch batches.now) }
{
    let mut least = DOC_COUNT;
    for batch in batches {
        least = least.min(batch.doc);
    }
    least
}

// Returns the error with the first cause, as `cause` orders them.
fn first_of(one: Option<ModelError>, other: ModelError) -> ModelError
    ensures { result ≡ first_of one other }
{
    match one {
        Some(error) if cause(error) <= cause(other) => error,
        _ => other,
    }
}

// The order of the causes. `Memory` is first.
fn cause(error: ModelError) -> u8
    ensures { result ≡ cause error }
{
    match error {
        ModelError::Memory => 0,
        ModelError::Unknown => 1,
        ModelError::Range => 2,
        ModelError::Overlap => 3,
        ModelError::Limit => 4,
    }
}
