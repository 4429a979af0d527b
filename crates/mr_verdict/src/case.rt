//! What a result is judged against, and what is judged.
ghost use Rattle.std.specs.Prelude.{◌≤◌, ◌^◌};
ghost use Rattle.mr_input.specs.Files.{split_total};

use mr_input::Input;
use mr_jobs::Request;

/// A request over an input, whose splits fit (`Request::fits`).
#[derive(Clone, Copy)]
pub struct Computation<'a> {
    pub request: &'a Request,
    pub input: &'a Input,
    pub ghost fits: { split_total request.now.split input.now ≤ 2 ^ 20 },
}

/// A result to judge: the outputs and the certificate that somebody returned, as bytes, for a
/// request over an input. The input's splits fit (`Request::fits`).
#[derive(Clone, Copy)]
pub struct Case<'a> {
    pub request: &'a Request,
    pub input: &'a Input,
    pub outputs: &'a [Vec<u8>],
    pub certificate: &'a [u8],
    pub ghost fits: { split_total request.now.split input.now ≤ 2 ^ 20 },
}
