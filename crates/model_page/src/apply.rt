//! Carries out ops and changes.

ghost use Rattle.std.specs.Prelude.{◌≡◌, ◌+◌, ◌<◌, ◌≤◌, length};
ghost use Rattle.batch_rules.specs.Batches.{applied_from};
ghost use Rattle.chunk_buffers.specs.Chunks.{unit_count};
ghost use Rattle.edit_stack.specs.Element.{step_of};
ghost use Rattle.document_rules.specs.Document.{carried_to};
ghost use Rattle.model_page.specs.declared.change.Change.TheVariants.{Endings};
ghost use Rattle.model_page.specs.Carrying.{edit_with, carried_with, decorations_over};
ghost use Rattle.model_page.specs.Changes.{led, ops_by, text_from, text_to};
ghost use Rattle.model_page.specs.Counts.{edit_count_along};
ghost use Rattle.model_page.specs.LineMarks.{marked_backwards, marks_over};
ghost use Rattle.model_page.specs.Needs.{need_along, most_appended};
ghost use Rattle.text_batches.specs.Growth.{HasGrown};
ghost use Rattle.text_buffer.specs.Room.{part_count};
ghost use Rattle.text_batches.specs.Needs.{edit_count, need_of_ops};
ghost use Rattle.model_page.specs.Placed.{op_of};
ghost use Rattle.model_page.specs.State.{CanApply, CanFollow, CanLead, HasRoom, HasSpent, KeepsParse, flat_text};
ghost use Rattle.model_page.specs.Ways.{text_by, changes_by, decorations_by, marked_along, place_at};

use crate::change::{Change, Way, batch_for};
use crate::page::Page;
use crate::placed::{OpView, PlacedBatch, PlacedRecast};
use decorations::Edit;
use edit_stack::Element;
use unit_text::Flat;

impl Page {
    /// Carries out the change this way: makes it again or takes it back. Room for it is reserved, so nothing is allocated. Decorations move
    /// with its ops, forced ones only if `forces` is set, and the touched lines are marked. On new line endings decorations keep their
    /// lines and columns, and lines keep their marks.
    pub fn follow(&mut self, change: &Change, way: Way, forces: bool)
        requires { CanFollow way self.old change.now }
        ensures text { flat_text self.new.text ≡ led way change.now (flat_text self.old.text) }
        ensures decorations { self.new.decorations
            ≡ decorations_over forces way change.now self.old.decorations }
        ensures marks { self.new.marks
            ≡ marks_over way change.now self.old.text.units self.old.marks }
        ensures parse { KeepsParse self.old self.new }
        ensures grown { HasGrown (edit_count (ops_by way change.now)) self.old.text self.new.text }
        ensures spent { HasSpent (need_of_ops (ops_by way change.now)) self.old self.new }
    {
        match change {
            Change::Ops { batch, inverse } => {
                self.carry(batch_for(batch, inverse, way), forces);
            }
            Change::Endings(recast) => self.recast(recast, way),
        }
    }

    // Carries out the ops. Texts with a known place are reused from the buffers.
    fn carry(&mut self, ops: &PlacedBatch, forces: bool)
        requires { CanApply self.old ops.now }
        ensures text { flat_text self.new.text
            ≡ record { units = applied_from 0 self.old.text.units ops.now; kind = self.old.text.kind } }
        ensures decorations { self.new.decorations
            ≡ carried_with forces self.old.decorations ops.now }
        ensures marks { self.new.marks
            ≡ marked_backwards self.old.text.units ops.now self.old.marks }
        ensures parse { KeepsParse self.old self.new }
        ensures grown { HasGrown (edit_count ops.now) self.old.text self.new.text }
        ensures spent { HasSpent (need_of_ops ops.now) self.old self.new }
    {
        let count = ops.len();
        for done in 0..count {
            let at = count - 1 - done;
            let op = ops.op(at);
            let edit = edit_with(&op, forces);
            self.decorations.accept(&edit);
            let mut place = ops.known(at);
            let dirty = self.text.replace_again(op.span, op.text, &mut place);
            ops.note(at, place);
            self.last.mark(dirty);
        }
    }

    // Replaces the text by the one to which the recast leads this way.
    fn recast(&mut self, recast: &PlacedRecast, way: Way)
        requires text { text_from way recast.now ≡ flat_text self.old.text }
        requires room { HasRoom self.old (need_of_ops (ops_by way (Endings recast.now))) }
        ensures text { flat_text self.new.text ≡ text_to way recast.now }
        ensures decorations { self.new.decorations ≡ carried_to self.old.decorations
            (text_from way recast.now).units (text_to way recast.now).units }
        ensures marks { self.new.marks ≡ self.old.marks }
        ensures parse { KeepsParse self.old self.new }
        ensures grown { HasGrown (part_count (text_to way recast.now).units)
            self.old.text self.new.text }
        ensures spent { HasSpent (need_of_ops (ops_by way (Endings recast.now))) self.old self.new }
    {
        let side = recast.side(way);
        let place = recast.place(way);
        let mut known = place.get();
        self.text
            .recast_again(side.kind(), side.units(), &mut known);
        place.set(known);
        self.decorations.carry(side.moves());
    }

    /// Carries out all changes of the step this way. Room for them is reserved, so nothing is allocated.
    pub fn lead(&mut self, step: &Element<Change>, way: Way)
        requires { CanLead way self.old (step_of step.now).changes }
        ensures text { flat_text self.new.text
            ≡ text_by way (flat_text self.old.text) (step_of step.now).changes }
        ensures decorations { self.new.decorations
            ≡ decorations_by way self.old.decorations (step_of step.now).changes }
        ensures marks { let done = changes_by way (flat_text self.old.text) (step_of step.now).changes in
            self.new.marks ≡ marked_along way self.old.marks done }
        ensures parse { KeepsParse self.old self.new }
        ensures grown { HasGrown (edit_count_along way (step_of step.now).changes)
            self.old.text self.new.text }
        ensures appended { unit_count self.new.text.buffers ≤ unit_count self.old.text.buffers
            + most_appended (need_along way (step_of step.now).changes) }
    {
        for done in 0..step.len() {
            let at = place_at(way, step.len(), done);
            self.follow(step.change(at), way, way.forces());
        }
    }
}

// Returns the index of the next change after `done` of `count`: from the last one on the way back, else from the first one.
pub(crate) fn place_at(way: Way, count: usize, done: usize) -> usize
    requires { done < count }
    ensures { result ≡ place_at way count done }
{
    match way {
        Way::Back => count - 1 - done,
        Way::On => done,
    }
}

fn edit_with(op: &OpView<'_>, forces: bool) -> Edit
    ensures { result ≡ edit_with forces (op_of op.now) }
{
    Edit {
        start: op.span.start,
        end: op.span.end,
        units: op.text.len() as u64,
        force: forces && op.force,
    }
}
