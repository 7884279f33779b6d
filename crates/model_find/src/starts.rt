//! The offsets of a run at which the sought text may begin.

ghost use Rattle.std.specs.Prelude.{◌≡◌, ℕ, ◌+◌, ◌-◌, ◌*◌, ◌<◌, ◌≤◌, true, false, List, length, max};
ghost use Rattle.model_find.specs.Matching.{may_begin};
ghost use Rattle.model_find.specs.Ahead.{KnowsStarts};

use crate::lanes::{LANES, both_in_block};
use steps::Steps;

/// The offsets of a run from `at` on, of which `known` are known: bit k of `marks` says whether the sought text may begin at `at + k`.
#[derive(Drop)]
pub(crate) struct Starts {
    pub at: usize,
    pub known: usize,
    pub marks: u64,
}

impl Starts {
    /// Returns the state with no known offsets.
    pub(crate) fn none() -> Starts
        ensures end { result.at + result.known ≡ 0 }
        ensures knows { (run sought : List ℕ) → KnowsStarts run sought result }
    {
        Starts {
            at: 0,
            known: 0,
            marks: 0,
        }
    }

    /// Goes on to the offset `at`, and forgets the offsets before it.
    pub(crate) fn go_to(&mut self, at: usize)
        requires ordered { self.old.at ≤ at }
        requires few { self.old.known ≤ 32 }
        ensures at { self.new.at ≡ at }
        ensures end { self.new.at + self.new.known ≡ max at (self.old.at + self.old.known) }
        ensures knows { (run sought : List ℕ) → at ≤ length run
            → KnowsStarts run sought self.old → KnowsStarts run sought self.new }
    {
        let passed = at - self.at;
        self.at = at;
        if passed < self.known {
            self.known -= passed;
            self.marks >>= passed;
        } else {
            self.known = 0;
            self.marks = 0;
        }
    }

    /// Returns the first offset from `self.at` on at which the sought text may begin; the length of the run if there is none.
    pub(crate) fn next<L>(&mut self, run: &[u16], sought: &[u16], looks: &mut Steps<L>) -> usize
        requires some { 0 < length sought.now }
        requires knows { KnowsStarts run.now sought.now self.old }
        ensures knows { KnowsStarts run.now sought.now self.new }
        ensures at { self.old.at ≤ self.new.at }
        ensures behind { self.new.at ≤ result }
        ensures within { result ≤ length run.now }
        ensures none { (k : ℕ) → self.old.at ≤ k → k < result
            → may_begin run.now sought.now k ≡ false }
        ensures known { result < length run.now → result < self.new.at + self.new.known }
        ensures cost { looks.new + 2 * (self.old.at + self.old.known)
            ≤ looks.old + 2 * (self.new.at + self.new.known) }
    {
        while self.marks == 0 {
            self.at += self.known;
            self.known = 0;
            if self.at == run.len() {
                return self.at;
            }
            self.look(run, sought);
            looks.add(2 * self.known as u64);
        }
        self.at + self.marks.trailing_zeros() as usize
    }

    // Computes `known` and `marks` for the offsets from `at` on, with two looks at each. Near the end of the run each is tested by itself.
    fn look(&mut self, run: &[u16], sought: &[u16])
        requires some { 0 < length sought.now }
        requires inside { self.old.at < length run.now }
        ensures knows { KnowsStarts run.now sought.now self.new }
        ensures at { self.new.at ≡ self.old.at }
        ensures further { 0 < self.new.known }
    {
        let last = sought.len() - 1;
        let left = run.len() - self.at;
        if left < LANES + last {
            self.known = left.min(LANES);
            self.marks = marks_one_by_one(run, sought, self.at, self.known);
        } else {
            self.known = LANES;
            self.marks = both_in_block(run, self.at, sought[0], last, sought[last]);
        }
    }
}

// Returns the marks of the offsets from `at` to `at + known`: bit k says whether the sought text may begin at `at + k`.
#[inline(always)]
fn marks_one_by_one(run: &[u16], sought: &[u16], at: usize, known: usize) -> u64
    requires some { 0 < length sought.now }
    requires within { at + known ≤ length run.now }
    requires few { known ≤ 32 }
    ensures { KnowsStarts run.now sought.now (record { at = at; known = known; marks = result }) }
{
    let mut marks = 0;
    let mut from = at + known;
    while from > at {
        from -= 1;
        marks = 2 * marks + u64::from(may_begin(run, sought, from));
    }
    marks
}

// Returns whether the sought text may begin at the offset `at`: the run has its first unit there, and its last unit where it would end,
// if that is inside the run.
fn may_begin(run: &[u16], sought: &[u16], at: usize) -> bool
    requires some { 0 < length sought.now }
    requires inside { at < length run.now }
    ensures { result ≡ may_begin run.now sought.now at }
{
    let last = sought.len() - 1;
    run[at] == sought[0] && (run.len() - at <= last || run[at + last] == sought[last])
}
