//! Decorations.

ghost use Rattle.std.specs.Prelude.{◌≡◌, ◌<◌, ◌++◌, [], map, option_map, IfOk, OnOk};
ghost use Rattle.group_rules.specs.declared.TheConstants.{DOC_COUNT};
ghost use Rattle.document_rules.specs.Document.{flat_deco};
ghost use Rattle.model_core.specs.Decorating.{HasDecorated};
ghost use Rattle.textmodel_c.specs.Documents.{document_in, KeepsOthers};
ghost use Rattle.textmodel_c.specs.Rules.{decoration_of, new_deco_of, owner_of, span, flat_decoration_list};
ghost use Rattle.textmodel_c.specs.Told.{Asked, DecoratesHeld, FoundFor, Lists, ListsHeld};

use crate::handle::{Handle, taken_for};
use crate::lists::hand_out_of;
use crate::status::Status;
use model_core::{Deco, Model, ModelError, NewDeco, Span};
use model_group::Group;
use std::alloc::{AllocError, Global};

/// A decoration to be added. Text typed at its ends makes it grow: mode 0 at both ends, 1 at neither, 2 at its start only, 3 at its end
/// only.
#[repr(C)]
#[derive(Clone, Copy)]
pub struct NewDecoration {
    pub start: u64,
    pub end: u64,
    pub stick: u64,
    pub collapse: bool,
}

/// A live decoration.
#[repr(C)]
#[derive(Clone, Copy)]
pub struct Decoration {
    pub id: u64,
    pub owner: u64,
    pub start: u64,
    pub end: u64,
    pub stick: u64,
    pub collapse: bool,
}

fn new_deco_of(new: NewDecoration) -> NewDeco
    ensures { result ≡ new_deco_of new }
{
    NewDeco {
        span: Span {
            start: new.start,
            end: new.end,
        },
        stick: new.stick,
        collapse: new.collapse,
    }
}

fn decoration_of(deco: Deco) -> Decoration
    ensures { result ≡ decoration_of deco }
{
    Decoration {
        id: deco.id,
        owner: deco.owner,
        start: deco.span.start,
        end: deco.span.end,
        stick: deco.stick,
        collapse: deco.collapse,
    }
}

fn new_decos_of(alloc: Global, add: &[NewDecoration]) -> Result<Vec<NewDeco>, AllocError>
    ensures { IfOk result (λ decos. decos.items ≡ map new_deco_of add.now) }
{
    let mut decos = Vec::with_capacity(alloc, add.len())?;
    for new in add {
        decos.push(new_deco_of(*new))?;
    }
    Ok(decos)
}

fn decorate(
    alloc: Global,
    group: &mut Group,
    doc: u64,
    owner: u64,
    remove: &[u64],
    add: &[NewDecoration],
) -> Result<u64, ModelError>
    requires { doc < DOC_COUNT }
    ensures document { HasDecorated owner remove.now (map new_deco_of add.now) result
        (document_in group.old doc) (document_in group.new doc) }
    ensures others { KeepsOthers doc group.old group.new }
{
    let add = new_decos_of(alloc, add).map_err(|_| ModelError::Memory)?;
    group.decorate(doc, owner, remove, &add)
}

/// Removes decorations of an owner and adds new ones, all or none. Sets `first` to the first new id, or to the next free id if none is
/// added. `Unknown` if an id to be removed is not live, has another owner or is repeated; else `Range` if a span is invalid or a mode is
/// above 3; else `Limit` if too many would be live or an id would be too large.
#[unsafe(no_mangle)]
pub extern "C" fn tm_raw_decorate(
    alloc: Global,
    handle: &mut Handle,
    doc: u64,
    owner: u64,
    remove: &[u64],
    add: &[NewDecoration],
    first: &mut u64,
) -> u32
    ensures document { DecoratesHeld result doc handle.old.held handle.new.held
        first.old first.new owner remove.now (map new_deco_of add.now) }
{
    let mut contents = taken_for!(handle, doc, alloc);
    let answer = decorate(alloc, &mut contents.session.group, doc, owner, remove, add);
    handle.put(contents);
    Status::of_given(answer, first).number()
}

/// Sets `decoration` to the live one with this id; `Nothing` if there is none.
#[unsafe(no_mangle)]
pub extern "C" fn tm_deco(
    alloc: Global,
    handle: &mut Handle,
    doc: u64,
    id: u64,
    decoration: &mut Decoration,
) -> u32
    ensures kept { handle.new.held ≡ handle.old.held }
    ensures decoration { Asked result doc handle.old.held decoration.old decoration.new
        (λ f. option_map decoration_of (flat_deco f id)) }
{
    let contents = taken_for!(handle, doc, alloc);
    let found = contents.document(doc).get_deco(id);
    handle.put(contents);
    let Some(found) = found else {
        return Status::Nothing.number();
    };
    *decoration = decoration_of(found);
    Status::Ok.number()
}

fn append_decorations(decos: &[Deco], out: &mut Vec<Decoration>) -> Result<(), AllocError>
    ensures { OnOk result (out.new.items ≡ out.old.items ++ map decoration_of decos.now) }
{
    for deco in decos {
        out.push(decoration_of(*deco))?;
    }
    Ok(())
}

fn decorations_in(
    alloc: Global,
    model: &Model,
    span: Span,
    owner: Option<u64>,
    out: &mut Vec<Decoration>,
) -> Result<(), ModelError>
    requires { out.old.items ≡ [] }
    ensures { FoundFor result out.new.items
        (flat_decoration_list model.now.document span owner) }
{
    let mut decos = Vec::new(alloc);
    model.decos_in(span, owner, &mut decos)?;
    append_decorations(&decos, out).map_err(|_| ModelError::Memory)
}

fn owner_of(owner: u64, any: bool) -> Option<u64>
    ensures { result ≡ owner_of owner any }
{
    if any { None } else { Some(owner) }
}

fn decorations_out(
    alloc: Global,
    model: &Model,
    span: Span,
    owner: Option<u64>,
    out: &mut [Decoration],
    count: &mut u64,
) -> Status
    ensures { Lists result out.old out.new count.old count.new
        (flat_decoration_list model.now.document span owner) }
{
    let mut found = Vec::new(alloc);
    let answer = decorations_in(alloc, model, span, owner, &mut found);
    hand_out_of(answer, &found, out, count)
}

/// Lists the decorations that overlap or touch the span from `start` up to `end`: those of the owner, or all if `any` is set. Sets `count`
/// to their number. `Range` if the span is invalid. `Short` if `out` is too short.
#[unsafe(no_mangle)]
pub extern "C" fn tm_raw_decos(
    alloc: Global,
    handle: &mut Handle,
    doc: u64,
    start: u64,
    end: u64,
    owner: u64,
    any: bool,
    out: &mut [Decoration],
    count: &mut u64,
) -> u32
    ensures kept { handle.new.held ≡ handle.old.held }
    ensures decorations { ListsHeld result doc handle.old.held out.old out.new count.old count.new
        (λ f. flat_decoration_list f (span start end) (owner_of owner any)) }
{
    let contents = taken_for!(handle, doc, alloc);
    let span = Span { start, end };
    let owner = owner_of(owner, any);
    let status = decorations_out(alloc, contents.document(doc), span, owner, out, count);
    handle.put(contents);
    status.number()
}
