// What the readers say of a row.
use rules::{Batcher, Metric, Processor, Stopwatch};
use std::io;
use table::Kind;
use words::word_at;

fn say_processor(rt: &impl Print, row: Processor) -> io::Result<()> {
    let Processor {
        input,
        output,
        queue_capacity,
    } = row;
    print!(rt; "; processor, ports {input} {output}, capacity {queue_capacity}")
}

fn say_batcher(rt: &impl Print, row: Batcher) -> io::Result<()> {
    let Batcher {
        input,
        output,
        max_batch_size,
        max_batch_time,
    } = row;
    let time = times::bits_of(max_batch_time);
    print!(rt; "; batcher, ports {input} {output}, size {max_batch_size}, time {time:016x}")
}

fn name(metric: Metric) -> &'static str {
    match metric {
        Metric::Minimum => "Minimum",
        Metric::Maximum => "Maximum",
    }
}

fn say_stopwatch(rt: &impl Print, row: Stopwatch) -> io::Result<()> {
    let Stopwatch {
        start,
        stop,
        ask,
        output,
        metric,
    } = row;
    let metric = name(metric);
    print!(rt; "; stopwatch, ports {start} {stop}, ports {ask} {output}, {metric}")
}

fn say_kind(rt: &impl Print, kind: Option<Kind>) -> io::Result<()> {
    match kind {
        Some(Kind::Processor(row)) => say_processor(rt, row),
        Some(Kind::Batcher(row)) => say_batcher(rt, row),
        Some(Kind::Stopwatch(row)) => say_stopwatch(rt, row),
        Some(Kind::Coupled) => rt.print("; Coupled"),
        None => rt.print("; broken"),
    }
}

fn say_parent(rt: &impl Print, parent: Option<u64>) -> io::Result<()> {
    match parent {
        Some(id) => print!(rt; "; parent {id}"),
        None => rt.print("; no parent"),
    }
}

// A row's id, what it is, its parent and its depth.
fn read(rt: &impl Print, models: &[u64], row: usize) -> io::Result<()> {
    let id = table::id_at(models, row);
    print!(rt; ": id {id}")?;
    say_kind(rt, table::kind_at(models, row))?;
    say_parent(rt, table::parent_at(models, row))?;
    let depth = table::depth_at(models, row);
    print!(rt; "; depth {depth}")
}

// A row of the sheet's first words.
pub(crate) fn of_sheet(rt: &impl Print, sheet: &[u64], asked: &[u64]) -> io::Result<()> {
    let row = word_at(asked, 1) as usize;
    match sheet.get(..word_at(asked, 2) as usize) {
        Some(models) => read(rt, models, row),
        None => Ok(()),
    }
}

// A row of the words that stand in the line.
pub(crate) fn of_line(rt: &impl Print, asked: &[u64]) -> io::Result<()> {
    match asked.get(2..) {
        Some(models) => read(rt, models, word_at(asked, 1) as usize),
        None => Ok(()),
    }
}
