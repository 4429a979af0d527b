//! Files in memory: a part and a certificate that are there or not, and a result that is written over them. The words
//! behind the first are what the second part is, and what the certificate is: 0 for not there, 1 for a file, 2 for one of
//! which each use fails.
use crate::inputs::numbers_of;
use crate::telling::Teller;
use mr_files::{FileFault, MemoryFiles, read_file, write_file, write_files};
use mr_store::Bytes;
use std::alloc::{AllocError, Global};

fn show_fault(teller: &Teller, fault: FileFault) {
    match fault {
        FileFault::CannotRead(name) => {
            teller.text("cannot read ");
            teller.line(&name);
        }
        FileFault::CannotWrite(name) => {
            teller.text("cannot write ");
            teller.line(&name);
        }
        FileFault::OutOfMemory => teller.line(&"OutOfMemory"),
    }
}

fn show_file(teller: &Teller, store: &MemoryFiles, name: &str) {
    match read_file(store, teller.alloc(), name) {
        Ok(bytes) => teller.one(&bytes),
        Err(fault) => show_fault(teller, fault),
    }
}

fn show_files(teller: &Teller, store: &MemoryFiles) {
    show_file(teller, store, "d/part-00000");
    show_file(teller, store, "d/part-00001");
    show_file(teller, store, "d/certificate");
}

fn show_written(teller: &Teller, answer: Result<(), FileFault>) {
    match answer {
        Ok(()) => teller.line(&"written"),
        Err(fault) => show_fault(teller, fault),
    }
}

/// Two parts.
fn parts(alloc: Global) -> Result<Vec<Vec<u8>>, AllocError> {
    let mut parts = Vec::new(alloc);
    parts.push(Vec::from_slice(alloc, b"the\t2\n")?)?;
    parts.push(Vec::from_slice(alloc, b"cat\t1\n")?)?;
    Ok(parts)
}

/// Writes the parts and a certificate.
fn write_parts(teller: &Teller, store: &mut MemoryFiles) -> Result<(), AllocError> {
    let parts = parts(teller.alloc())?;
    show_written(
        teller,
        write_files(store, teller.alloc(), "d", &parts, &Bytes(b"new")),
    );
    Ok(())
}

fn put(store: &mut MemoryFiles, name: &str, how: u32) -> Result<(), AllocError> {
    match how {
        0 => Ok(()),
        _ => store.put(name, b"old", how == 2),
    }
}

/// Puts what the numbers tell of the second part and of the certificate.
fn put_both(store: &mut MemoryFiles, numbers: [u32; 4]) -> Result<(), AllocError> {
    put(store, "d/part-00001", numbers[0])?;
    put(store, "d/certificate", numbers[1])
}

fn work(teller: &Teller, store: &mut MemoryFiles) -> Result<(), AllocError> {
    show_files(teller, store);
    write_parts(teller, store)?;
    show_files(teller, store);
    show_written(
        teller,
        write_file(store, teller.alloc(), "d/part-00001", b"dog"),
    );
    show_file(teller, store, "d/part-00001");
    Ok(())
}

/// Tells the files before a result is written, and behind it, then those behind another text of the second part.
pub fn answer(teller: &Teller, words: &[String]) -> Result<(), AllocError> {
    let mut store = MemoryFiles::new(teller.alloc());
    put_both(&mut store, numbers_of(words))?;
    work(teller, &mut store)
}
