//! Where the records begin that a run leaves out.
//!
//!     the cat\nsat | on\nthe mat\n      a file in splits of 11 bytes
//!     skips 0:1  1:0                record 1 of split 0, record 0 of split 1
//!     spots 0 8  0 15               the same records: file 0, from bytes 8 and 15 on
//!
//! A run names a record by its split and its number there. Another cut of the files gives it
//! another name, but it begins at the same byte, so verdicts tell that. Names that rise give spots
//! that rise. Cost: a plan of the input, if there is a name, then one look-up a name.
ghost use Rattle.std.specs.Prelude.{◌≡◌, ◌<◌, ◌≤◌, ◌^◌, IfOk, IsTrue, Some};
ghost use Rattle.std.specs.Option.{option_map};
ghost use Rattle.mr_bytes.specs.Lists.{Rises};
ghost use Rattle.mr_bytes.specs.Order.{record_order};
ghost use Rattle.mr_input.specs.Files.{split_total};
ghost use Rattle.mr_splits.specs.Cut.{is_record, record_named, records_of};
ghost use Rattle.mr_shards.specs.Spots.{SkipsExist, spot_of, spots_of};

use crate::shift::Spot;
use mr_bytes::RecordName;
use mr_input::Input;
use mr_jobs::Request;
use mr_splits::Plan;
use std::alloc::{AllocError, Global};

/// Where the records begin that `skips` names, in its order. The names rise and exist, and the
/// input's splits fit the request (`Request::fits`).
pub fn spots_for(
    alloc: Global,
    request: &Request,
    input: &Input,
    skips: &[RecordName],
) -> Result<Vec<Spot>, AllocError>
    requires few { split_total request.now.split input.now ≤ 2 ^ 20 }
    requires rise { Rises record_order skips.now }
    requires exist { SkipsExist request.now.split input.now skips.now }
    ensures { IfOk result (λ v. v.items ≡ spots_of request.now.split input.now skips.now) }
{
    let mut spots = Vec::new(alloc);
    if skips.is_empty() {
        return Ok(spots);
    }
    let plan = Plan::new_fitting(alloc, input, request.split_size())?;
    for name in skips {
        spots.push(spot_at(&plan, *name)).map_err(AllocError::from)?;
    }
    Ok(spots)
}

/// Where the record of that name begins.
fn spot_at(plan: &Plan<'_>, name: RecordName) -> Spot
    requires some { 0 < plan.now.size }
    requires exists { IsTrue (is_record (records_of plan.now) name) }
    ensures { option_map spot_of (record_named (records_of plan.now) name) ≡ Some result }
{
    let found = plan.locate(name.split, name.rec);
    Spot {
        file: found.file,
        start: found.start as u64,
    }
}
