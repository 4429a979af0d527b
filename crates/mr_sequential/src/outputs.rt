//! Makes outputs and the groups of a certificate from gathered pairs.
ghost use Rattle.std.specs.Prelude.{◌≡◌, ◌<◌, ◌^◌, IfOk, length};
ghost use Rattle.mr_input.specs.Files.{contents};
ghost use Rattle.mr_sequential.specs.Names.{AreEmitted};
ghost use Rattle.mr_sequential.specs.Rows.{AreOutputs};

use crate::groups::grouped;
use crate::source::Emitted;
use crate::texts::texts_of;
use mr_certform::FlatGroups;
use mr_group::ranked;
use mr_jobs::Request;
use mr_splits::KeptPlan;
use std::alloc::{AllocError, Global};

/// Each partition's texts by rising key, and all groups, from the kept records' keys and names.
pub(crate) fn outputs(
    alloc: Global,
    request: &Request,
    kept: &KeptPlan<'_>,
    emitted: Emitted,
) -> Result<(Vec<Vec<u8>>, FlatGroups), AllocError>
    requires some { 0 < kept.now.cut.size }
    requires size { kept.now.cut.size ≡ request.now.split }
    requires few { length emitted.keys < 2 ^ 32 }
    requires emitted { AreEmitted request.now.job kept.now emitted.keys emitted.names }
    ensures { IfOk result (λ r. AreOutputs request.now kept.now (contents r.0.items) r.1) }
{
    let Emitted { keys, names } = emitted;
    let (keys, numbers) = keys.into_parts();
    let pairs = ranked(alloc, &keys, request.by(), request.parts(), numbers)?;
    // The texts may take more memory than all this: what they don't need goes first.
    let (rows, groups) = grouped(alloc, request, kept, pairs, names)?;
    let texts = texts_of(alloc, request.job(), kept.plan(), rows.as_slice(), &groups)?;
    Ok((texts, groups))
}
