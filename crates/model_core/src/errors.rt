//! The errors of the parts as those of a document.

ghost use Rattle.std.specs.Prelude.{◌≡◌};
ghost use Rattle.model_core.specs.Errors.{error_of, refusal_of, shelf_error_of, recast_error_of};

use decorations::DecoError;
use document_rules::ModelError;
use edit_batches::BatchError;
use recasts::RecastError;
use snapshots::ShelfError;

pub(crate) fn error_of(error: BatchError) -> ModelError
    ensures { result ≡ error_of error }
{
    match error {
        BatchError::Range => ModelError::Range,
        BatchError::Overlap => ModelError::Overlap,
        BatchError::Limit => ModelError::Limit,
        BatchError::Memory => ModelError::Memory,
    }
}

pub(crate) fn refusal_of(error: DecoError) -> ModelError
    ensures { result ≡ refusal_of error }
{
    match error {
        DecoError::Unknown => ModelError::Unknown,
        DecoError::Range => ModelError::Range,
        DecoError::Limit => ModelError::Limit,
        DecoError::Memory => ModelError::Memory,
    }
}

pub(crate) fn shelf_error_of(error: ShelfError) -> ModelError
    ensures { result ≡ shelf_error_of error }
{
    match error {
        ShelfError::Unknown => ModelError::Unknown,
        ShelfError::Range => ModelError::Range,
        ShelfError::Limit => ModelError::Limit,
        ShelfError::Memory => ModelError::Memory,
    }
}

pub(crate) fn recast_error_of(error: RecastError) -> ModelError
    ensures { result ≡ recast_error_of error }
{
    match error {
        RecastError::Limit => ModelError::Limit,
        RecastError::Memory => ModelError::Memory,
    }
}
