//! The master's book: the words are how many splits, partitions, workers, attempts of a task, records that may be left out,
//! and seats there are. Each line of standard input is a call: its kind, its seat, and its numbers. A line answers it with
//! the reply, the output that comes with it, and all that can be looked at. At the end of the lines the book is closed, and
//! its history told; and where the job is done, the result that the book assembled before, for a job over as many files as
//! splits, each of one word.
ghost use Rattle.std.specs.Prelude.{◌≡◌, vec_len};

use crate::asked::number_at;
use crate::outputs;
use crate::telling::Teller;
use mr_book::{Book, History, Kept, Seat};
use mr_certform::{Certificate, Version, write};
use mr_core::{End, Limits, Reply, Shape, Task};
use mr_input::Input;
use mr_jobs::{Job, Request};
use mr_splits::Plan;
use mr_task::{ReduceOutput, Stored};
use std::alloc::{AllocFailed, Global};
use std::marker::Brand;
use std::sync::Arc;
use std::sync::ledger::{Blank, Ledger};

/// The number of a word; 0 where there is no word, or it is no number.
fn number_of(word: Option<&str>) -> u32 {
    match word {
        Some(word) => word.parse().unwrap_or(0),
        None => 0,
    }
}

/// The numbers of a line; what is missing or is no number is 0.
fn numbers_of(line: &str) -> [u32; 4] {
    let mut words = line.split(' ');
    let kind = number_of(words.next());
    let seat = number_of(words.next());
    let first = number_of(words.next());
    let second = number_of(words.next());
    [kind, seat, first, second]
}

/// The numbers that the program is given; what is missing or is no number is 0.
fn sizes_of(words: &[String]) -> [u32; 6] {
    [
        number_at(words, 0),
        number_at(words, 1),
        number_at(words, 2),
        number_at(words, 3),
        number_at(words, 4),
        number_at(words, 5),
    ]
}

/// Makes the call on the book, and tells the reply and what comes with it.
fn call<L: Ledger>(out: &Teller, book: &mut Book<L>, seat: &mut Seat<L>, numbers: [u32; 4]) {
    let [kind, _, first, second] = numbers;
    match kind {
        1 => out.reply(book.ask(seat, first)),
        2 => fetch(out, book, seat, first, second),
        3 => map_done(out, book, seat, first, second),
        4 => out.reply(book.map_failed(seat, first, second)),
        5 => reduce_done(out, book, seat, first, second),
        7 => out.reply(book.damaged(seat, first, second)),
        _ => out.reply(book.lose(seat, first)),
    }
}

/// Tells a reply, and the output that comes with it.
fn show_fetched(out: &Teller, reply: &Reply, output: &Option<Arc<Stored>>) {
    out.before_bar(reply);
    if let Some(output) = output {
        outputs::show_map(out, output);
    }
}

fn fetch<L: Ledger>(out: &Teller, book: &mut Book<L>, seat: &mut Seat<L>, attempt: u32, map: u32) {
    match book.fetch(seat, attempt, map) {
        Ok((reply, output)) => show_fetched(out, &reply, &output),
        Err(refused) => out.lack(refused),
    }
}

/// Tells a reply, or an output that was handed back.
fn show_map_done(out: &Teller, done: &Result<Reply, AllocFailed<Stored>>) {
    match done {
        Ok(reply) => out.before_bar(reply),
        Err(refused) => outputs::show_map(out, &refused.value),
    }
}

fn map_done<L: Ledger>(
    out: &Teller,
    book: &mut Book<L>,
    seat: &mut Seat<L>,
    attempt: u32,
    number: u32,
) {
    let Some(output) = outputs::stored(out.alloc(), number) else {
        return;
    };
    show_map_done(out, &book.map_done(seat, attempt, output));
}

/// Tells a reply, or an output that was handed back.
fn show_reduce_done(out: &Teller, done: &Result<Reply, AllocFailed<ReduceOutput>>) {
    match done {
        Ok(reply) => out.before_bar(reply),
        Err(refused) => out.value(&refused.value.text()),
    }
}

fn reduce_done<L: Ledger>(
    out: &Teller,
    book: &mut Book<L>,
    seat: &mut Seat<L>,
    attempt: u32,
    number: u32,
) {
    let Some(output) = outputs::reduce_output(out.alloc(), number) else {
        return;
    };
    show_reduce_done(out, &book.reduce_done(seat, attempt, output));
}

/// Tells of each split and of each partition whether its task is complete.
fn show_complete<L: Ledger>(out: &Teller, book: &Book<L>, shape: Shape) {
    for split in 0..shape.maps {
        out.behind_bar(&book.complete(Task::Map(split)));
    }
    for part in 0..shape.parts {
        out.behind_bar(&book.complete(Task::Reduce(part)));
    }
}

/// Tells what can be looked at: the shape, the end, each split and partition, how far the history has grown, the seat.
fn show<L: Ledger>(out: &Teller, book: &Book<L>, seat: &Seat<L>) {
    let shape = book.shape();
    out.behind_bar(&shape);
    out.behind_bar(&book.end());
    show_complete(out, book, shape);
    out.tell(format_args!("|{}|{}\n", book.grown(), seat.calls()));
}

/// Answers a line that names a seat.
fn serve_line<L: Ledger>(out: &Teller, book: &mut Book<L>, seats: &mut [Seat<L>], line: &str) {
    let numbers = numbers_of(line);
    if let Some(seat) = seats.get_mut(numbers[1] as usize) {
        call(out, book, seat, numbers);
        show(out, book, seat);
    }
}

/// Answers each line, up to the first fault.
fn serve<L: Ledger>(out: &Teller, book: &mut Book<L>, seats: &mut [Seat<L>]) {
    for line in out.runtime().lines(out.alloc()) {
        match line {
            Ok(line) => serve_line(out, book, seats, line.as_str()),
            Err(fault) => out.fail(fault),
        }
        if out.has_failed() {
            return;
        }
    }
}

fn show_stored_map(out: &Teller, stored: &Kept<Stored>) {
    out.tell(format_args!("|{} ", stored.number()));
    outputs::show_map(out, stored.output());
}

fn show_stored_reduce(out: &Teller, stored: &Kept<ReduceOutput>) {
    out.behind_bar_with(&stored.number(), &stored.output().text());
}

/// Tells the outputs that a history stores.
fn show_stored(out: &Teller, history: &History) {
    for stored in &history.maps {
        show_stored_map(out, stored);
    }
    for stored in &history.reduces {
        show_stored_reduce(out, stored);
    }
    out.line("");
}

/// Tells a history.
fn show_history(out: &Teller, history: &History) {
    out.value(&history.shape);
    for entry in &history.entries {
        out.behind_bar_with(&entry.event(), entry.reply());
    }
    show_stored(out, history);
}

/// So many files, each of one word.
fn input_of(alloc: Global, count: u32) -> Option<Input> {
    let mut files = Vec::new(alloc);
    for _ in 0..count {
        files.push(Vec::from_slice(alloc, b"w\n").ok()?).ok()?;
    }
    Input::of(files).ok()
}

/// The result of a book whose job is done, where it was opened for this request and this input.
fn assembled<L: Ledger>(
    alloc: Global,
    book: &Book<L>,
    request: &Request,
    input: &Input,
) -> Option<(Vec<Vec<u8>>, Certificate)> {
    let shape = book.shape();
    let plan = Plan::of(alloc, input, request.split_size()).ok()?;
    if plan.splits() != shape.maps || request.parts() != shape.parts {
        return None;
    }
    if request.max_skips() != shape.limits.skips || book.end() != Some(End::Done) {
        return None;
    }
    book.assemble(alloc, request, input).ok()
}

/// The result of a book whose job is done, over as many files as it has splits.
fn result_of<L: Ledger>(alloc: Global, book: &Book<L>) -> Option<(Vec<Vec<u8>>, Certificate)> {
    let shape = book.shape();
    let input = input_of(alloc, shape.maps)?;
    let request = Request::new(Job::words(false), shape.parts, 64, shape.limits.skips).ok()?;
    assembled(alloc, book, &request, &input)
}

/// Tells a result, as a run's is told.
fn show_result(out: &Teller, outputs: &[Vec<u8>], certificate: &Certificate) {
    if let Ok(certificate) = write(out.alloc(), certificate, Version::V1) {
        out.result(outputs, certificate.as_slice());
    }
}

/// Answers each line by the book, closes it, and tells its history, and the result of a job that is done.
fn serve_all<L: Ledger>(out: &Teller, mut book: Book<L>, mut seats: Vec<Seat<L>>)
    requires all { vec_len seats ≡ L.parts }
{
    serve(out, &mut book, seats.as_mut_slice());
    let assembled = result_of(out.alloc(), &book);
    show_history(out, &book.close(seats));
    if let Some((outputs, certificate)) = assembled {
        show_result(out, outputs.as_slice(), &certificate);
    }
}

/// Opens a book of these sizes, where they are within the limits of a small job, and closes it at the end of the lines.
fn work<L: Ledger>(out: &Teller, blank: Blank, sizes: [u32; 6], seats: u32)
    requires ledger { (blank.name ≡ L.name) × (blank.parts ≡ L.parts) }
    requires seats { blank.parts ≡ seats }
{
    let [maps, parts, workers, attempts, skips, _] = sizes;
    if 64 < maps || parts < 1 || 8 < parts || workers < 1 || 8 < workers {
        return;
    }
    if attempts < 1 || 8 < attempts || 8 < skips {
        return;
    }
    let limits = Limits { attempts, skips };
    match Book::<L>::open(
        out.alloc(),
        blank,
        maps,
        parts,
        workers,
        limits,
        seats as usize,
    ) {
        Ok((book, seats)) => serve_all(out, book, seats),
        Err(refused) => out.lack(refused),
    }
}

/// Answers standard input, by these words.
pub fn answer(out: &Teller, words: &[String]) {
    let sizes = sizes_of(words);
    let seats = sizes[5];
    work::<Brand>(out, Blank::new(u64::from(seats)), sizes, seats);
}
