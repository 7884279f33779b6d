//! Tests of the arena: two values are inserted, the first is removed, and the second is read and overwritten.
ghost use Rattle.std.specs.Prelude.{◌≡◌, ◌≤◌, Some, IfOk};
ghost use Rattle.std.specs.FinMap as map;
ghost use Rattle.raw_arena.specs.Arena.{node};

use raw_arena::{Arena, NodeId};
use std::alloc::{AllocError, Global};
use steps::Steps;

/// Inserts two values and removes the first.
fn put_two_take_one(arena: &mut Arena<u64>) -> NodeId
    requires empty { arena.old.live ≡ map.empty }
    requires room { 2 ≤ arena.old.spare }
    ensures value { node arena.new result ≡ Some 9 }
    ensures one { map.len arena.new.live ≡ 1 }
{
    let first = arena.put(7);
    let second = arena.put(9);
    arena.take(first);
    second
}

/// Returns the value that is left, before and after it is overwritten.
fn what_is_left(alloc: Global) -> Result<(u64, u64), AllocError>
    ensures { IfOk result (λ x. (x.0 ≡ 9) × (x.1 ≡ 4)) }
{
    let mut arena: Arena<u64> = Arena::new(alloc);
    arena.reserve(2)?;
    let left = put_two_take_one(&mut arena);
    let mut steps = Steps::new();
    let before = *arena.visit(left, &mut steps);
    *arena.visit_mut(left, &mut steps) = 4;
    Ok((before, *arena.visit(left, &mut steps)))
}

#[test]
fn the_second_of_two_values_is_left(rt: HostRuntime) {
    let left = what_is_left(rt.alloc());
    assert!(rt; matches!(left, Ok((9, 4))));
}
