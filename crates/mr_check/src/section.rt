//! Where a section of a certificate begins.
ghost use Rattle.std.specs.Prelude.{◌<◌, ◌^◌, length};
ghost use Rattle.mr_certform.specs.Walking.{items_left};

use mr_certform::Walker;

/// Where a section begins: `at` items come before it. `next` is the partition after the open one,
/// of which `groups` groups are left, and `group` groups with `entries` entries came before.
#[derive(Clone, Copy)]
pub(crate) struct Section<'a> {
    pub walker: Walker<'a>,
    pub at: u64,
    pub next: u64,
    pub groups: u64,
    pub group: u64,
    pub entries: u64,
    pub ghost few: { length (items_left walker) < 2 ^ 63 },
}
