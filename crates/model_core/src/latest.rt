//! The last change of a document.

ghost use Rattle.std.specs.Prelude.{◌≡◌};
ghost use Rattle.model_core.specs.History.{latest_along, way_to};

use model_page::Way;

/// The kind of the last change.
#[derive(Clone, Copy)]
pub(crate) enum Latest {
    /// An edit, or new line endings.
    Made,
    /// An undo.
    TakenBack,
    /// A redo.
    MadeAgain,
}

impl Latest {
    /// The kind of a change that goes this way.
    pub fn along(way: Way) -> Latest
        ensures { result ≡ latest_along way }
    {
        match way {
            Way::Back => Latest::TakenBack,
            Way::On => Latest::MadeAgain,
        }
    }

    /// The way on which its step is next.
    pub fn way(self) -> Way
        ensures { result ≡ way_to self }
    {
        match self {
            Latest::Made | Latest::MadeAgain => Way::Back,
            Latest::TakenBack => Way::On,
        }
    }
}
