//! The decorations of a document.

ghost use Rattle.std.specs.Prelude.{◌≡◌, List, length, IfSome, Ok};
ghost use Rattle.decoration_rules.specs.Moves.{IsSpanIn};
ghost use Rattle.document_rules.specs.Outcomes.{Appends};
ghost use Rattle.document_rules.specs.Paired.{IsPairedState};
ghost use Rattle.model_core.specs.Decorating.{AreInText, HasDecorated};
ghost use Rattle.model_core.specs.State.{KeepsParse};
ghost use Rattle.document_rules.specs.Document.{flat_deco, flat_decos};

use crate::errors::refusal_of;
use crate::model::Model;
use decorations::{Deco, NewDeco};
use document_rules::ModelError;
use text_lengths::Span;
use text_rules::is_bad_span;

impl Model {
    /// Removes decorations of an owner and adds new ones, all or none. Returns the first new id, or the next free id if none is added.
    /// `Unknown` if an id to be removed is not live, has another owner or is repeated; else `Range` if a span is invalid or a mode is above
    /// 3; else `Limit` if too many would be live or an id would be too large.
    pub fn decorate(
        &mut self,
        owner: u64,
        remove: &[u64],
        add: &[NewDeco],
    ) -> Result<u64, ModelError>
        ensures document { HasDecorated owner remove.now add.now
            result self.old.document self.new.document }
        ensures paired_state { IsPairedState self.old.document → IsPairedState self.new.document }
        ensures parse { KeepsParse self.old self.new }
    {
        self.page.decorate(owner, remove, add).map_err(refusal_of)
    }

    /// Returns the live decoration with this id. Its span is within the text.
    pub fn get_deco(&self, id: u64) -> Option<Deco>
        ensures deco { result ≡ flat_deco self.now.document id }
        ensures inside { IfSome result
            (λ deco. IsSpanIn deco.span (length self.now.document.units)) }
    {
        self.page.decorations().get(id)
    }

    /// Appends the decorations that overlap or touch the span: those of one owner, or all. Their spans are within the text. `Range` if the
    /// span is invalid. On an error `out` is unchanged.
    pub fn decos_in(
        &self,
        span: Span,
        owner: Option<u64>,
        out: &mut Vec<Deco>,
    ) -> Result<(), ModelError>
        ensures decos { Appends result out.old.items out.new.items
            (flat_decos self.now.document span owner) }
        ensures inside { (decos : List Deco) → flat_decos self.now.document span owner ≡ Ok decos
            → AreInText self.now.document decos }
    {
        if is_bad_span(self.page.text(), span) {
            return Err(ModelError::Range);
        }
        self.page
            .decorations()
            .in_range(span, owner, out)
            .map_err(|_| ModelError::Memory)
    }
}
