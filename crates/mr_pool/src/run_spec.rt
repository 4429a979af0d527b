//! The specification of a run, and the shape that its numbers give.
ghost use Rattle.std.specs.Prelude.{◌≡◌, ◌≤◌, ◌^◌};
ghost use Rattle.mr_input.specs.Files.{split_total};
ghost use Rattle.mr_pool.specs.Outcomes.{IsRunnable, run_shape};

use mr_certform::Version;
use mr_core::{Limits, Shape};
use mr_input::Input;
use mr_jobs::Request;
use mr_script::Script;

/// A job over an input, the script of what goes wrong, the counts of tasks, workers and attempts,
/// and the certificate's version.
#[derive(Clone, Copy)]
pub struct RunSpec<'a> {
    pub request: &'a Request,
    pub input: &'a Input,
    pub script: &'a Script,
    pub shape: Shape,
    pub version: Version,
}

/// The shape of a run with 1 to 64 workers and 1 to 16 attempts for each task. The input's splits
/// must fit (`Request::fits`).
pub fn shape_of(request: &Request, input: &Input, workers: u32, attempts: u32) -> Shape
    requires fits { split_total request.now.split input.now ≤ 2 ^ 20 }
    requires workers { (1 ≤ workers) × (workers ≤ 64) }
    requires attempts { (1 ≤ attempts) × (attempts ≤ 16) }
    ensures shape { result ≡ run_shape request.now input.now workers attempts }
    ensures runnable { IsRunnable request.now input.now result }
{
    Shape {
        maps: input.splits(request.split_size()) as u32,
        parts: request.parts(),
        workers,
        limits: Limits {
            attempts,
            skips: request.max_skips(),
        },
    }
}
