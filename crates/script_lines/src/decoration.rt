//! Parsing of new decorations.

ghost use Rattle.serde_json.specs.View.{view};
ghost use Rattle.script_lines.specs.Reading.{Reads};
ghost use Rattle.script_lines.specs.Decorations.{new_deco_in};

use crate::fields::{LineFault, expect_only, flag_at, number_at, span_at};
use crate::items::Item;
use decoration_rules::NewDeco;
use serde_json::Value;
use std::alloc::Global;

impl Item for NewDeco {
    ghost reads = { new_deco_in };

    fn item_in(_alloc: Global, value: &Value) -> Result<NewDeco, LineFault> {
        new_deco_in(value)
    }
}

fn new_deco_in(value: &Value) -> Result<NewDeco, LineFault>
    ensures { Reads result (new_deco_in (view value.now)) }
{
    expect_only(value, &["at", "stick", "collapse"])?;
    let span = span_at(value, "at")?;
    let stick = number_at(value, "stick")?;
    let collapse = flag_at(value, "collapse")?;
    Ok(NewDeco {
        span,
        stick,
        collapse,
    })
}
