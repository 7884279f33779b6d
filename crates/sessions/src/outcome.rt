//! The outcome of a line: its reply, or why it is refused.

ghost use Rattle.std.specs.Prelude.{◌≡◌};
ghost use Rattle.script_lines.specs.declared.reason.Refusal.TheVariants as refusal;
ghost use Rattle.sessions.specs.Bytes.{bytes_of, refusal_of, refusal_of_group, refusal_of_fault};

use model_core::ModelError;
use model_group::GroupError;
use script_lines::{LineFault, Refusal, Short};
use std::alloc::AllocError;

/// The reply to an accepted line.
#[derive(Drop)]
pub enum Reply {
    /// The reply to a blank line.
    Nothing,
    Short(Short),
    Long(Vec<u8>),
}

impl Reply {
    pub fn as_slice(&self) -> &[u8]
        ensures { result.now ≡ bytes_of self.now }
    {
        match self {
            Reply::Nothing => &[],
            Reply::Short(short) => short.as_slice(),
            Reply::Long(long) => long.as_slice(),
        }
    }
}

/// A refused line, with the reason.
#[derive(Clone, Copy)]
pub struct Refused(pub Refusal);

/// The outcome of a line.
pub type Outcome = Result<Reply, Refused>;

impl From<ModelError> for Refused {
    ghost from_gives = { λ error refused. refused ≡ record { 0 = refusal_of error } };

    fn from(error: ModelError) -> Refused {
        Refused(refusal_of(error))
    }
}

fn refusal_of(error: ModelError) -> Refusal
    ensures { result ≡ refusal_of error }
{
    match error {
        ModelError::Unknown => Refusal::Unknown,
        ModelError::Range => Refusal::Range,
        ModelError::Overlap => Refusal::Overlap,
        ModelError::Limit => Refusal::Limit,
        ModelError::Memory => Refusal::Memory,
    }
}

impl From<GroupError> for Refused {
    ghost from_gives = { λ error refused. refused ≡ record { 0 = refusal_of_group error } };

    fn from(error: GroupError) -> Refused {
        Refused(refusal_of_group(error))
    }
}

fn refusal_of_group(error: GroupError) -> Refusal
    ensures { result ≡ refusal_of_group error }
{
    match error {
        GroupError::Unknown => Refusal::Unknown,
        GroupError::Range => Refusal::Range,
        GroupError::Overlap => Refusal::Overlap,
        GroupError::Limit => Refusal::Limit,
        GroupError::Joint { doc } => Refusal::Joint { doc },
        GroupError::Memory => Refusal::Memory,
    }
}

impl From<LineFault> for Refused {
    ghost from_gives = { λ fault refused. refused ≡ record { 0 = refusal_of_fault fault } };

    fn from(fault: LineFault) -> Refused {
        match fault {
            LineFault::Syntax => Refused(Refusal::Syntax),
            LineFault::Memory => Refused(Refusal::Memory),
        }
    }
}

impl From<AllocError> for Refused {
    ghost from_gives = { λ _ refused. refused ≡ record { 0 = refusal.Memory } };

    fn from(_error: AllocError) -> Refused {
        Refused(Refusal::Memory)
    }
}
