//! The state that is kept from line to line.

ghost use Rattle.std.specs.Prelude.{◌≡◌, ◌<◌, [], None, IfOk, OnOk, OnErr};
ghost use Rattle.hiding_rules.specs.Hidden.{scanner};
ghost use Rattle.document_rules.specs.Outcomes.{Changes};
ghost use Rattle.group_rules.specs.declared.TheConstants.{DOC_COUNT};
ghost use Rattle.group_rules.specs.Group.{group_open};
ghost use Rattle.model_group.specs.State.{documents};
ghost use Rattle.session_rules.specs.Session.{new_session};
ghost use Rattle.sessions.specs.Standing.{AreFresh, BeginsAnew, Represents, Turns};
ghost use Rattle.sessions.specs.Bytes.{bytes_of_outcome};
ghost use Rattle.sessions.specs.Told.{IsAccepted, Tells};

use crate::line::{MOST_LINE_BYTES, is_blank};
use crate::outcome::{Outcome, Refused, Reply};
use crate::reply::{carry_out, reply_to_bytes};
use mirror_model::Mirror;
use model_core::{BracketTable, Event, Hiding, Kind, ModelError};
use model_group::{DOC_COUNT, Group};
use script_lines::{Command, Refusal};
use std::alloc::{AllocError, Global};
use steps::{Steps, Uncounted};

/// A document's mirror and sent events.
#[derive(Drop)]
pub struct Follower {
    /// The mirror, if one was begun.
    pub mirror: Option<Mirror>,
    /// The events that were sent, in order.
    pub sent: Vec<Event>,
}

impl Follower {
    /// No mirror and no events.
    fn new(alloc: Global) -> Follower
        ensures mirror { result.mirror ≡ None }
        ensures sent { result.sent.items ≡ [] }
    {
        Follower {
            mirror: None,
            sent: Vec::new(alloc),
        }
    }
}

/// Answers lines, one after another. Holds the documents, their mirrors and events, the allocator of replies, and one counter for the steps
/// of all questions.
#[derive(Drop)]
pub struct Session {
    pub alloc: Global,
    pub group: Group,
    /// One for each document, by number.
    pub followers: Vec<Follower>,
    pub steps: Steps<Uncounted>,
}

impl Session {
    /// Makes a session of empty documents.
    pub fn new(alloc: Global) -> Result<Session, AllocError>
        ensures { IfOk result (λ session. Represents session new_session) }
    {
        let group = Group::new(alloc)?;
        let followers = new_followers(alloc)?;
        Ok(Session {
            alloc,
            group,
            followers,
            steps: Steps::new(),
        })
    }

    /// Replaces this document by a new one, as `Group::open_doc` does. Removes its mirror and its events.
    pub fn open_doc(
        &mut self,
        doc: u64,
        text: &[u16],
        table: BracketTable,
        kind: Kind,
        hiding: Hiding,
    ) -> Result<(), ModelError>
        requires { doc < DOC_COUNT }
        ensures documents { let g = documents self.old.group in
            Changes result g (documents self.new.group)
            (group_open g doc text.now (scanner table hiding) kind) }
        ensures followers { OnOk result
            (BeginsAnew doc self.old.followers.items self.new.followers.items) }
        ensures kept { OnErr result (self.new.followers.items ≡ self.old.followers.items) }
    {
        self.group.open_doc(doc, text, table, kind, hiding)?;
        if let Some(follower) = self.followers.get_mut(doc as usize) {
            *follower = Follower::new(self.alloc);
        }
        Ok(())
    }

    /// Carries out a command on this document, as if a line had asked for it.
    pub fn carry_out(&mut self, doc: u64, command: Command) -> Outcome
        requires { doc < DOC_COUNT }
        ensures { Tells self.old doc command result self.new }
    {
        carry_out(self, doc, command)
    }

    /// Answers a whole line, given without its LF.
    pub fn answer(&mut self, line: &[u8]) -> Outcome
        ensures turn { Turns self.old line.now (bytes_of_outcome result) self.new }
        ensures accepted { IsAccepted result }
    {
        if line.len() > MOST_LINE_BYTES {
            return Err(Refused(Refusal::Limit));
        }
        if is_blank(line) {
            return Ok(Reply::Nothing);
        }
        reply_to_bytes(self, line)
    }
}

/// One for each document, without a mirror or events.
fn new_followers(alloc: Global) -> Result<Vec<Follower>, AllocError>
    ensures { IfOk result (λ followers. AreFresh followers.items) }
{
    let mut followers = Vec::with_capacity(alloc, DOC_COUNT as usize)?;
    for _ in 0..DOC_COUNT {
        followers.push(Follower::new(alloc))?;
    }
    Ok(followers)
}
