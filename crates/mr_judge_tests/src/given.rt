//! What the tests hand the judge: a request and an input that fits it, outputs, and the certificate of a few words.
ghost use Rattle.std.specs.Prelude.{◌≤◌, ◌^◌, IfOk};
ghost use Rattle.mr_input.specs.Files.{split_total};

use mr_example::{ExampleFault, input_of};
use mr_input::Input;
use mr_jobs::{Job, Request};
use std::alloc::{AllocError, Global};

/// The certificate of the words of `a b a` and a line end, one partition, splits of 64 bytes.
pub const CERTIFICATE: [u8; 92] = [
    0x4d, 0x52, 0x43, 0x45, 0x52, 0x54, 0x31, 0x0a, 0, 0, 0, 1, 0, 0, 0, 0, 0, 0, 0, 0, 0, 0, 0, 1,
    0, 0, 0, 0x40, 0, 0, 0, 1, 0, 0, 0, 0, 0, 0, 0, 6, 0, 0, 0, 0, 0, 0, 0, 2, 0, 0, 0, 2, 0, 0, 0,
    0, 0, 0, 0, 0, 0, 0, 0, 0, 0, 0, 0, 0, 0, 0, 0, 0, 0, 0, 0, 2, 0, 0, 0, 1, 0, 0, 0, 0, 0, 0, 0,
    0, 0, 0, 0, 1,
];

/// The output that it names.
pub const OUTPUT: [u8; 8] = *b"a\t2\nb\t1\n";

/// What both sides agree on.
#[derive(Drop)]
pub struct Given {
    pub request: Request,
    pub input: Input,
}

/// This request, and one text as its input.
pub fn with_text(alloc: Global, request: Request, text: &[u8]) -> Result<Given, ExampleFault>
    ensures { IfOk result (λ g. split_total g.request.split g.input ≤ 2 ^ 20) }
{
    let input = input_of(alloc, &request, text)?;
    Ok(Given { request, input })
}

/// The words of `a b a` and a line end, in this many partitions and splits of 64 bytes.
pub fn few_words(alloc: Global, parts: u32) -> Result<Given, ExampleFault>
    ensures { IfOk result (λ g. split_total g.request.split g.input ≤ 2 ^ 20) }
{
    with_text(
        alloc,
        Request::new(Job::words(false), parts, 64, 0)?,
        b"a b a\n",
    )
}

/// These texts as a list of outputs.
pub fn list_of(alloc: Global, texts: &[&[u8]]) -> Result<Vec<Vec<u8>>, AllocError> {
    let mut list = Vec::new(alloc);
    for text in texts {
        list.push(Vec::from_slice(alloc, text)?)?;
    }
    Ok(list)
}
