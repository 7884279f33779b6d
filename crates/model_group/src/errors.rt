//! Converts the errors of one document into those of a group.

ghost use Rattle.std.specs.Prelude.{◌≡◌};
ghost use Rattle.model_group.specs.Errors.{group_error_of};

use document_rules::ModelError;
use group_rules::GroupError;

pub(crate) fn group_error_of(error: ModelError) -> GroupError
    ensures { result ≡ group_error_of error }
{
    match error {
        ModelError::Unknown => GroupError::Unknown,
        ModelError::Range => GroupError::Range,
        ModelError::Overlap => GroupError::Overlap,
        ModelError::Limit => GroupError::Limit,
        ModelError::Memory => GroupError::Memory,
    }
}
