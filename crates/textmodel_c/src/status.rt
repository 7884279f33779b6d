//! The status of a call.

ghost use Rattle.std.specs.Prelude.{◌≡◌};
ghost use Rattle.textmodel_c.specs.Statuses.{number_of, status_of_error, status_of_group_error, status_of_refusal, status_of_step, status_of_going, status_of_joint, status_of_given, given_or, status_of_found, found_or};
ghost use Rattle.textmodel_c.specs.Told.{other_or};

use model_core::ModelError;
use model_group::GroupError;
use script_lines::Refusal;

/// The status of a call: `Ok`, `Nothing`, or the reason why nothing was changed.
#[derive(Clone, Copy)]
pub enum Status {
    Ok,
    /// There is no such step, decoration, partner, offset or position, or the kind is the same.
    Nothing,
    /// There is no document, decoration, snapshot, event or mirror of this number.
    Unknown,
    /// A place, a line, a span, a kind, a mode, an encoding or a text is invalid.
    Range,
    /// Two edits of a batch overlap.
    Overlap,
    /// A limit would be passed.
    Limit,
    /// There was no memory for the call.
    Memory,
    /// A text is not valid UTF-8.
    Encoding,
    /// The handle holds nothing.
    Empty,
    /// The buffer for the answer is too short.
    Short,
    /// A step of a joint edit is not the next one in each of its documents.
    Joint,
    /// A mirror lacks earlier events.
    Gap,
}

impl Status {
    /// Returns the number of the status in C.
    pub(crate) fn number(self) -> u32
        ensures { result ≡ number_of self }
    {
        match self {
            Status::Ok => 0,
            Status::Nothing => 1,
            Status::Unknown => 2,
            Status::Range => 3,
            Status::Overlap => 4,
            Status::Limit => 5,
            Status::Memory => 6,
            Status::Encoding => 7,
            Status::Empty => 8,
            Status::Short => 9,
            Status::Joint => 10,
            Status::Gap => 11,
        }
    }

    pub(crate) fn of_error(error: ModelError) -> Status
        ensures { result ≡ status_of_error error }
    {
        match error {
            ModelError::Unknown => Status::Unknown,
            ModelError::Range => Status::Range,
            ModelError::Overlap => Status::Overlap,
            ModelError::Limit => Status::Limit,
            ModelError::Memory => Status::Memory,
        }
    }

    fn of_group_error(error: GroupError) -> Status
        ensures { result ≡ status_of_group_error error }
    {
        match error {
            GroupError::Unknown => Status::Unknown,
            GroupError::Range => Status::Range,
            GroupError::Overlap => Status::Overlap,
            GroupError::Limit => Status::Limit,
            GroupError::Joint { .. } => Status::Joint,
            GroupError::Memory => Status::Memory,
        }
    }

    /// Returns the status for a refused script command.
    pub(crate) fn of_refusal(reason: Refusal) -> Status
        ensures { result ≡ status_of_refusal reason }
    {
        match reason {
            Refusal::Syntax => Status::Range,
            Refusal::Unknown => Status::Unknown,
            Refusal::Range => Status::Range,
            Refusal::Overlap => Status::Overlap,
            Refusal::Limit => Status::Limit,
            Refusal::Memory => Status::Memory,
            Refusal::Gap { .. } => Status::Gap,
            Refusal::Joint { .. } => Status::Joint,
        }
    }

    /// Returns the status of a call without a result.
    pub(crate) fn of_done(answer: Result<(), ModelError>) -> Status
        ensures { result ≡ status_of_given answer }
    {
        match answer {
            Ok(()) => Status::Ok,
            Err(error) => Status::of_error(error),
        }
    }

    /// Returns the status of a call that may have nothing to do.
    pub(crate) fn of_step(answer: Result<bool, ModelError>) -> Status
        ensures { result ≡ status_of_step answer }
    {
        match answer {
            Ok(true) => Status::Ok,
            Ok(false) => Status::Nothing,
            Err(error) => Status::of_error(error),
        }
    }

    /// Like `of_step`, for undo and redo. On `Joint`, sets `other` to the document in the way.
    pub(crate) fn of_going(answer: Result<bool, GroupError>, other: &mut u64) -> Status
        ensures status { result ≡ status_of_going answer }
        ensures other { other.new ≡ other_or other.old answer }
    {
        match answer {
            Ok(true) => Status::Ok,
            Ok(false) => Status::Nothing,
            Err(error) => {
                if let GroupError::Joint { doc } = error {
                    *other = doc;
                }
                Status::of_group_error(error)
            }
        }
    }

    /// Returns the status of a call on several documents without a result.
    pub(crate) fn of_joint(answer: Result<(), GroupError>) -> Status
        ensures { result ≡ status_of_joint answer }
    {
        match answer {
            Ok(()) => Status::Ok,
            Err(error) => Status::of_group_error(error),
        }
    }

    /// Stores the result, if there is one, and returns the status.
    pub(crate) fn of_found<T: Copy>(answer: Result<Option<T>, ModelError>, out: &mut T) -> Status
        ensures status { result ≡ status_of_found answer }
        ensures given { out.new ≡ found_or out.old answer }
    {
        match answer {
            Ok(Some(found)) => {
                *out = found;
                Status::Ok
            }
            Ok(None) => Status::Nothing,
            Err(error) => Status::of_error(error),
        }
    }

    /// Stores the number, if there is one, and returns the status.
    pub(crate) fn of_given(answer: Result<u64, ModelError>, out: &mut u64) -> Status
        ensures status { result ≡ status_of_given answer }
        ensures given { out.new ≡ given_or out.old answer }
    {
        match answer {
            Ok(number) => {
                *out = number;
                Status::Ok
            }
            Err(error) => Status::of_error(error),
        }
    }
}
