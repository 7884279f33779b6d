//! Prepared changes of a document.

ghost use Rattle.std.specs.Prelude.{◌≡◌, ◌+◌, ◌<◌, ◌≤◌};
ghost use Rattle.document_rules.specs.Document.{greatest_version};

use model_page::{Change, CompactRoom, Way};
use std::marker::Model;
use unit_text::Kind;

/// The effect of a prepared change.
#[derive(Drop)]
pub(crate) enum Action {
    /// Makes this change.
    Make(Change),
    /// Carries out the next undo or redo.
    Move(Way),
}

/// A prepared change, for `commit` on a document of this version and this kind of line endings. Contracts see the version before it, the
/// kind, the action and the room.
#[derive(Drop)]
pub struct Ready {
    /// The version after the change.
    next: u64,
    /// The kind of line endings before the change.
    kind: Kind,
    action: Action,
    /// Room to rewrite the text after the change; None if that is not due or memory was short.
    room: Option<CompactRoom>,
}

impl Model for Ready {
    ghost use Rattle.std.specs.Prelude.{◌-◌, ◌<◌, ◌≤◌};
    ghost use Rattle.document_rules.specs.Document.{greatest_version};
    ghost use Rattle.model_core.specs.Prepared.{Prepared};

    ghost Value = { Prepared };

    ghost view = { λ r. record { version = r.next - 1; kind = r.kind; action = r.action; room = r.room } };

    ghost invariant = { λ r. (0 < r.next) × (r.next ≤ greatest_version) };
}

impl Ready {
    /// Makes one from the version after the change, the kind, the action and the room.
    pub(crate) fn making(next: u64, kind: Kind, action: Action, room: Option<CompactRoom>) -> Ready
        requires first { 0 < next }
        requires last { next ≤ greatest_version }
        ensures version { result.version + 1 ≡ next }
        ensures kind { result.kind ≡ kind }
        ensures action { result.action ≡ action }
        ensures room { result.room ≡ room }
    {
        Ready {
            next,
            kind,
            action,
            room,
        }
    }

    /// Returns the version after the change, the action and the room.
    pub(crate) fn into_parts(self) -> (u64, Action, Option<CompactRoom>)
        ensures next { result.0 ≡ self.version + 1 }
        ensures last { result.0 ≤ greatest_version }
        ensures action { result.1 ≡ self.action }
        ensures room { result.2 ≡ self.room }
    {
        (self.next, self.action, self.room)
    }
}
