//! Decorations that each edit moves one by one.

/// A decoration, ordered by start, then end, then id.
#[derive(Clone, Copy, PartialEq, Eq, PartialOrd, Ord)]
pub struct FlatMark {
    pub start: u64,
    pub end: u64,
    pub id: u64,
    pub stick: u64,
    pub collapse: bool,
}

/// An edit, as far as it affects decorations.
#[derive(Clone, Copy)]
pub struct FlatEdit {
    pub start: u64,
    pub end: u64,
    pub units: u64,
    pub force: bool,
}

impl FlatEdit {
    pub fn removed(&self) -> u64 {
        self.end.saturating_sub(self.start)
    }

    /// Returns the place of a start or an end after the edit; `sticks` says whether it sticks to the text before it.
    fn moved(&self, place: u64, sticks: bool) -> u64 {
        let holds = !self.force && sticks;
        let replaced = self.start.saturating_add(self.removed().min(self.units));
        if is_before(
            place,
            self.start,
            !self.force && (sticks || self.removed() > 0),
        ) {
            return place;
        }
        if !self.force
            && replaced > self.start
            && is_before(place, replaced, sticks || self.removed() > self.units)
        {
            return place;
        }
        if is_before(place, self.end, holds) {
            return self.start.saturating_add(self.units);
        }
        place
            .saturating_add(self.units)
            .saturating_sub(self.removed())
    }
}

/// Whether the place is before the other, or equal to it while `holds`.
fn is_before(place: u64, other: u64, holds: bool) -> bool {
    place < other || (place == other && holds)
}

impl FlatMark {
    /// Returns the decoration after the edit.
    pub fn after(self, edit: &FlatEdit) -> FlatMark {
        if self.collapse && edit.start <= self.start && self.end <= edit.end {
            return FlatMark {
                start: edit.start,
                end: edit.start,
                ..self
            };
        }
        let start = edit.moved(self.start, self.stick == 0 || self.stick == 2);
        let end = edit.moved(self.end, self.stick == 1 || self.stick == 2);
        FlatMark {
            start,
            end: start.max(end),
            ..self
        }
    }
}
