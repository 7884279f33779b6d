//! Lists of bracket trees, and shared trees.

use bracket_nodes::{Entry, Node, Status, capped_node, concat, pair_node, stray_node, text_node};
use std::alloc::{AllocError, Global};
use std::test::Fail;
use text_lengths::Length;

const ONE: Length = Length {
    lines: 0,
    columns: 1,
};

/// Returns `(` and `)` round `]`, a text of one unit, and a bracket at the cap, as one list.
fn list(alloc: Global) -> Result<Node, AllocError> {
    let mut nodes = Vec::new(alloc);
    let inside = stray_node(alloc, 1, ONE)?;
    nodes.push(pair_node(alloc, 0, ONE, inside, Some(ONE))?)?;
    nodes.push(text_node(alloc, ONE)?)?;
    nodes.push(capped_node(alloc, 0, ONE)?)?;
    concat(alloc, nodes)
}

fn entry(columns: u64, kind: u64, status: Status, level: u64) -> Entry {
    Entry {
        place: Length { lines: 0, columns },
        len: 1,
        kind,
        status,
        level,
    }
}

#[test]
fn entries_of_a_shared_list(rt: HostRuntime) -> Result<(), Fail> {
    let list = list(rt.alloc())?.share()?;
    let mut entries = Vec::new(rt.alloc());
    list.entries(0, 0, &mut entries)?;
    let expected = [
        entry(0, 0, Status::PairedOpening, 0),
        entry(1, 1, Status::Unexpected, 1),
        entry(2, 0, Status::PairedClosing, 0),
    ];
    assert_eq!(rt; entries.as_slice(), expected.as_slice());
    Ok(())
}
