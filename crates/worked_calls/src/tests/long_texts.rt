//! A batch on a text of the greatest length, which is not in memory.
ghost use Rattle.std.specs.Prelude.{List, ℕ, replicate};
ghost use Rattle.unit_text.specs.declared.kind.Kind.TheVariants.{Mixed};

use batch_rules::BatchError;
use edit_batches::{Batch, MOST_TEXT_UNITS, Op, Sorted};
use std::alloc::{AllocError, Global};
use std::test::Fail;
use text_lengths::Span;
use unit_text::{Flat, Kind, Units};

const LETTER: u16 = 0x61;

static ONE_LETTER: [u16; 1] = [LETTER];

/// A text of one letter, `count` times.
#[derive(Drop)]
struct Letters {
    count: u64,
}

impl Flat for Letters {
    ghost units = { λ text. replicate text.count 0x61 };

    ghost kind = { λ _. Mixed };

    fn kind(&self) -> Kind {
        Kind::Mixed
    }

    fn len(&self) -> u64 {
        self.count
    }

    fn is_place(&self, offset: u64) -> bool {
        offset <= self.count
    }

    fn are_places(&self, start: u64, end: u64) -> bool {
        self.is_place(start) && self.is_place(end)
    }

    fn run(&self, _at: u64) -> &[u16] {
        &ONE_LETTER
    }

    fn copy(&self, start: u64, end: u64, out: &mut Vec<u16>) -> Result<(), AllocError> {
        let Some(len) = out.len().checked_add((end - start) as usize) else {
            return Err(AllocError);
        };
        out.resize(len, LETTER)
    }
}

/// Returns a batch that inserts a letter at the end of the text.
fn one_more(alloc: Global, count: u64) -> Result<Batch, BatchError> {
    let text = Units::from_vec(vec![in alloc; LETTER].map_err(|_| BatchError::Memory)?);
    let span = Span {
        start: count,
        end: count,
    };
    let op = Op {
        span,
        text,
        force: false,
    };
    let ops = vec![in alloc; op].map_err(|_| BatchError::Memory)?;
    let sorted = Sorted::of(ops).map_err(|_| BatchError::Memory)?;
    Batch::checked(sorted, &Letters { count })
}

#[test]
fn the_longest_text(rt: HostRuntime) -> Result<(), Fail> {
    assert!(rt; one_more(rt.alloc(), MOST_TEXT_UNITS - 1).is_ok());
    assert!(rt;
        matches!(
            one_more(rt.alloc(), MOST_TEXT_UNITS),
            Err(BatchError::Limit)
        )
    );
    Ok(())
}
