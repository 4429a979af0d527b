//! Windows: some records of one split, one after another. A window is mapped by itself, and the
//! windows of `windows` have each record of the input once.
//!
//!     split 0 | 1   | 2     |          records
//!     0 1 2 3 |     | 0 1 2 |
//!     [ 0 1 2 ) [3) | [0 1 2)          windows of at most three records
ghost use Rattle.std.specs.Prelude.{◌≡◌, ℕ, ◌+◌, ◌≤◌, ◌<◌, IfOk, OnOk};
ghost use Rattle.mr_input.specs.Files.{split_total};
ghost use Rattle.mr_index.specs.Windows.{number_of, Follow, Tiles};

use mr_splits::Plan;
use std::alloc::{AllocError, Global};

/// The records of a split from number `from` up to before `end`.
#[derive(Clone, Copy, PartialEq, Eq, Debug)]
pub struct Window {
    pub split: u32,
    pub from: u32,
    pub end: u32,
}

/// Cuts each split into windows of `most` records, the last of which may have fewer. So record `r`
/// is in window `r / most` of its split. A split without records has no window.
pub fn windows(alloc: Global, plan: &Plan<'_>, most: u32) -> Result<Vec<Window>, AllocError>
    requires { 0 < most }
    ensures { IfOk result (λ ws. Tiles plan.now 0 0 ws.items) }
{
    // This shows the plan's size to be at least 1, so that its splits have all records.
    let _size = plan.size();
    let mut windows = Vec::new(alloc);
    for split in 0..plan.splits() {
        push_split(&mut windows, plan, split, most)?;
    }
    Ok(windows)
}

fn push_split(
    windows: &mut Vec<Window>,
    plan: &Plan<'_>,
    split: u32,
    most: u32,
) -> Result<(), AllocError>
    requires some { 0 < most }
    requires split { split < split_total plan.now.size plan.now.files }
    requires before { Follow plan.now 0 windows.old.items (number_of plan.now split 0) }
    ensures { OnOk result (Follow plan.now 0 windows.new.items (number_of plan.now (split + 1) 0)) }
{
    let records = plan.records_in(split);
    let mut from = 0;
    while from < records {
        let end = from.saturating_add(most).min(records);
        windows.push(Window { split, from, end })?;
        from = end;
    }
    Ok(())
}
