//! Carries out a batch on a text.

ghost use Rattle.std.specs.Prelude.{◌≡◌, ◌+◌, ◌<◌, ◌^◌, length};
ghost use Rattle.unit_text.specs.declared.kind.Kind.TheVariants.{Mixed};
ghost use Rattle.batch_rules.specs.Batches.{applied_from, text_units, StandFrom};
ghost use Rattle.text_buffer.specs.Room as text_room;
ghost use Rattle.text_batches.specs.Growth.{HasGrown};
ghost use Rattle.text_batches.specs.Needs.{edit_count, need_of_ops};

use text_buffer::TextBuffer;
use text_rules::Op;

/// Carries out the ops on a text with reserved room. Looks up all their ends first if there is memory for that; allocates nothing else.
pub fn apply_to_text(text: &mut TextBuffer, ops: &[Op])
    requires standing { StandFrom 0 text.old.units ops.now }
    requires mixed { text.old.kind ≡ Mixed }
    requires small { length text.old.units + text_units ops.now < 2 ^ 62 }
    requires room { text_room.IsEnough text.old.room (need_of_ops ops.now) }
    ensures units { text.new.units ≡ applied_from 0 text.old.units ops.now }
    ensures kind { text.new.kind ≡ text.old.kind }
    ensures grown { HasGrown (edit_count ops.now) text.old text.new }
    ensures spent { text_room.HasSpent (need_of_ops ops.now) text.old.room text.new.room }
{
    text.seek(ops);
    for done in 0..ops.len() {
        let op = &ops[ops.len() - 1 - done];
        text.replace(op.span, op.text.as_slice());
    }
}
