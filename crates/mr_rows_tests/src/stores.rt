//! Stores in memory. A line of standard input has what is asked, how many bytes a call moves at most, which call fails (0
//! for none), and a limit or the number of a writer. It is answered by a line, and one for each writer.
ghost use Rattle.std.specs.Prelude.{◌≤◌, IfSome};

use crate::master::numbers_of;
use crate::telling::Teller;
use mr_store::{
    Bytes, CountedRead, CountedWrite, MemoryReader, MemoryWriter, read_all, read_limited,
    write_all, write_encoded, write_result,
};
use std::alloc::{AllocError, Global};
use std::io;

const TEXT: [u8; 20] = *b"0123456789abcdefghij";

/// The call that fails, where there is one: 0 stands for none.
pub fn failing_call(number: u64) -> Option<u64>
    ensures { IfSome result (λ call. 1 ≤ call) }
{
    match number {
        0 => None,
        _ => Some(number),
    }
}

/// A reader of the text.
fn reader(alloc: Global, most: u32, failing: u32) -> Result<MemoryReader, AllocError> {
    let text = Vec::from_slice(alloc, &TEXT)?;
    let failing = failing_call(u64::from(failing));
    Ok(MemoryReader::new(text, most.max(1) as usize, failing))
}

/// A writer that takes so many bytes a call, and of which that call fails, unless it is 0.
pub fn writer(alloc: Global, most: u32, failing: u32) -> MemoryWriter {
    let failing = failing_call(u64::from(failing));
    MemoryWriter::new(alloc, most.max(1) as usize, failing)
}

fn show_reader(teller: &Teller, reader: &MemoryReader, out: &[u8]) {
    teller.four(
        &out,
        &reader.rest(),
        &reader.failures(),
        &reader.is_out_of_memory(),
    );
}

/// Reads to the end, of which no more bytes may be left than the limit, where there is one, behind an `x`.
fn show_read(
    teller: &Teller,
    mut reader: MemoryReader,
    limit: Option<u64>,
) -> Result<(), AllocError> {
    let mut out = Vec::from_slice(teller.alloc(), b"x")?;
    match limit {
        Some(limit) => teller.part(&read_limited(&mut reader, &mut out, limit)),
        None => teller.part(&read_all(&mut reader, &mut out)),
    }
    show_reader(teller, &reader, &out);
    Ok(())
}

/// How many bytes of the text a reader gives in a first read of eight, through the bound alone.
fn first_eight<R: CountedRead>(reader: &mut R) -> usize {
    let mut buffer = [0u8; 8];
    reader.read(&mut buffer).unwrap_or(99)
}

/// How many bytes of the text a writer takes in one write, and whether it flushes, through the bound alone.
fn first_write<W: CountedWrite>(writer: &mut W) -> (usize, bool) {
    let count = writer.write(&TEXT).unwrap_or(99);
    (count, writer.flush().is_ok())
}

fn show_first_eight(teller: &Teller, mut reader: MemoryReader) {
    teller.line(&first_eight(&mut reader));
}

fn show_writer(teller: &Teller, writer: &MemoryWriter) {
    teller.four(
        &writer.bytes(),
        &writer.flushed(),
        &writer.failures(),
        &writer.is_out_of_memory(),
    );
}

/// Writes the text alone, or writes it and hands it on.
fn show_written(teller: &Teller, mut writer: MemoryWriter, alone: bool) {
    let answer = if alone {
        write_all(&mut writer, &TEXT)
    } else {
        write_encoded(&mut writer, &Bytes(&TEXT))
    };
    teller.part(&answer);
    show_writer(teller, &writer);
}

fn show_first_write(teller: &Teller, mut writer: MemoryWriter) {
    teller.one(&first_write(&mut writer));
    show_writer(teller, &writer);
}

/// Writes in one of these ways.
fn show_writing(teller: &Teller, way: u32, writer: MemoryWriter) {
    match way {
        4 => show_first_write(teller, writer),
        _ => show_written(teller, writer, way == 2),
    }
}

fn outputs(alloc: Global) -> Result<Vec<Vec<u8>>, AllocError> {
    let mut outputs = Vec::new(alloc);
    for text in [b"ab".as_slice(), b"".as_slice(), b"cd".as_slice()] {
        outputs.push(Vec::from_slice(alloc, text)?)?;
    }
    Ok(outputs)
}

/// A writer for each output, of which one fails at that call.
fn writers(
    alloc: Global,
    most: u32,
    call: u32,
    stops: u32,
) -> Result<Vec<MemoryWriter>, AllocError> {
    let mut writers = Vec::new(alloc);
    for i in 0..3 {
        let failing = if i == stops { call } else { 0 };
        writers.push(writer(alloc, most, failing))?;
    }
    Ok(writers)
}

/// Writes `ab`, nothing and `cd`, each by its writer, then `ef` by the last.
fn show_result(
    teller: &Teller,
    outputs: &[Vec<u8>],
    writers: &mut [MemoryWriter],
    last: &mut MemoryWriter,
) {
    if writers.len() != outputs.len() {
        return;
    }
    teller.one(&write_result(writers, last, outputs, b"ef"));
    for writer in writers {
        show_writer(teller, writer);
    }
    show_writer(teller, last);
}

/// Gives the writers, of which that with the number `stops` fails at the call; 3 is the certificate's.
fn write_to_all(teller: &Teller, most: u32, call: u32, stops: u32) -> Result<(), AllocError> {
    let mut writers = writers(teller.alloc(), most, call, stops)?;
    let failing = if stops == 3 { call } else { 0 };
    let mut last = writer(teller.alloc(), most, failing);
    let outputs = outputs(teller.alloc())?;
    show_result(teller, &outputs, &mut writers, &mut last);
    Ok(())
}

/// The limit that a number tells: the greatest stands for none.
fn limit_of(number: u32) -> u64 {
    match number {
        u32::MAX => u64::MAX,
        _ => u64::from(number),
    }
}

fn answer_line(teller: &Teller, numbers: [u32; 6]) -> Result<(), AllocError> {
    let [way, most, failing, limit, ..] = numbers;
    match way {
        0 => show_read(teller, reader(teller.alloc(), most, failing)?, None),
        1 => show_read(
            teller,
            reader(teller.alloc(), most, failing)?,
            Some(limit_of(limit)),
        ),
        2..=4 => {
            show_writing(teller, way, writer(teller.alloc(), most, failing));
            Ok(())
        }
        5 => {
            show_first_eight(teller, reader(teller.alloc(), most, failing)?);
            Ok(())
        }
        _ => write_to_all(teller, most, failing, limit),
    }
}

/// Answers standard input.
pub fn answer(teller: &Teller) -> io::Result<()> {
    for line in teller.lines() {
        answer_line(teller, numbers_of(line?.as_str()))?;
    }
    Ok(())
}
