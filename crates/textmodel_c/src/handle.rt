//! The handle of a session, as C holds it.

ghost use Rattle.std.specs.Prelude.{◌≡◌, Option, None, Some};
ghost use Rattle.textmodel_c.specs.declared.contents.Contents.{Contents};
ghost use Rattle.textmodel_c.specs.Held.{handle_owns, held_coded};
ghost use Rattle.std.specs.Option.{MatchOption};

mod raw_box;

use crate::contents::Contents;
use crate::handle::raw_box::RawBox;
use std::alloc::Global;
use std::marker::Model;
use std::mem::replace;
use std::ptr::null_mut;

/// A session on the heap, or nothing if the address is null. A handle can't be dropped: its session must be taken out, so that no session
/// leaks.
#[repr(C)]
pub struct Handle {
    at: *mut (),
    alloc: Global,
    pub ghost held: { Option Contents } by { held_coded },
}

/// Takes the contents out of the handle. If it is empty, makes the caller return `Empty`.
macro_rules! taken {
    ($handle:expr, $alloc:expr) => {
        match $handle.take($alloc) {
            Some(contents) => contents,
            None => return Status::Empty.number(),
        }
    };
}

/// Like `taken`, for a call on one document. If the number is out of range, makes the caller return `Unknown`; the handle is unchanged.
macro_rules! taken_for {
    ($handle:expr, $doc:expr, $alloc:expr) => {{
        let contents = match $handle.take($alloc) {
            Some(contents) => contents,
            None => return Status::Empty.number(),
        };
        if $doc >= model_group::DOC_COUNT {
            $handle.put(contents);
            return Status::Unknown.number();
        }
        contents
    }};
}

pub(crate) use taken;
pub(crate) use taken_for;

impl Model for Handle {
    ghost also_owns = { λ h. handle_owns h.alloc h.at h.held };
}

impl Handle {
    /// Makes an empty handle.
    pub(crate) fn empty(alloc: Global) -> Handle
        ensures { result.held ≡ None }
    {
        Handle {
            at: null_mut(),
            alloc,
        }
    }

    fn of_raw(contents: RawBox<Contents, Global>) -> Handle
        ensures { result.held ≡ Some contents.value }
    {
        let RawBox { at, alloc } = contents;
        Handle {
            at: at as *mut (),
            alloc,
        }
    }

    fn into_raw(self) -> Option<RawBox<Contents, Global>>
        ensures { MatchOption result (self.held ≡ None) (λ raw. self.held ≡ Some raw.value) }
    {
        let Handle { at, alloc } = self;
        if at.is_null() {
            return None;
        }
        Some(RawBox {
            at: at as *mut Contents,
            alloc,
        })
    }

    /// Takes the contents out of the handle, if any, and leaves it empty.
    pub(crate) fn take(&mut self, alloc: Global) -> Option<Box<Contents>>
        ensures taken { MatchOption result (self.old.held ≡ None)
            (λ contents. self.old.held ≡ Some contents.value) }
        ensures left { self.new.held ≡ None }
    {
        let raw = replace(self, Handle::empty(alloc)).into_raw()?;
        Some(raw.into_box())
    }

    /// Puts the contents into the handle. Frees what it held before.
    pub(crate) fn put(&mut self, contents: Box<Contents>)
        ensures { self.new.held ≡ Some contents.value }
    {
        let held = replace(self, Handle::of_raw(RawBox::of(contents)));
        if let Some(raw) = held.into_raw() {
            drop(raw.into_box());
        }
    }
}
