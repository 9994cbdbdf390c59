// Why a table is refused, in words.
use crate::course::Bench;
use crate::say;
use bench_file::Page;
use reasons::Reason;
use std::io::Stderr;
use table::BadTable;

// `FILE:LINE: ` of the row that a verdict names, or of the first that is too many.
pub(crate) fn place(
    err: Stderr,
    bench: Bench,
    verdict: Result<(), BadTable>,
    reason: Option<Reason>,
) {
    match verdict {
        Err(BadTable::Row(row)) => say::place(err, bench, Page::Models, row),
        Err(BadTable::Connector(row)) => say::place(err, bench, Page::Connectors, row),
        Err(BadTable::Coupling(row)) => say::place(err, bench, Page::Couplings, row),
        Err(BadTable::TooLarge) => one_too_many(err, bench, reason),
        Ok(()) => {}
    }
}

// The first row that a table has no room for.
fn one_too_many(err: Stderr, bench: Bench, reason: Option<Reason>) {
    match reason {
        Some(Reason::ManyModels) => say::place(err, bench, Page::Models, 64),
        Some(Reason::ManyConnectors) => say::place(err, bench, Page::Connectors, 256),
        _ => say::place(err, bench, Page::Couplings, 256),
    }
}

// The rule that is broken.
pub(crate) fn rule(err: Stderr, text: &[u8], reason: Option<Reason>) {
    match reason {
        Some(Reason::IdTaken(row)) => {
            let line = bench_file::line_of(text, Page::Models, row);
            say::print(err, format_args!("the id stands in line {line} already"));
        }
        Some(reason) => say::print(err, words(reason)),
        None => {}
    }
}

// The reader lets no row be cut short, no kind be unknown and no id or port be too large; the words are there for the sake of all reasons.
fn words(reason: Reason) -> &'static str {
    match reason {
        Reason::ManyModels => "there are more than 64 models",
        Reason::ManyConnectors => "there are more than 256 connectors",
        Reason::ManyCouplings => "there are more than 256 couplings",
        Reason::ModelCutShort | Reason::ConnectorCutShort | Reason::CouplingCutShort => {
            "the row is cut short"
        }
        Reason::UnknownKind | Reason::UnknownCoupling => "the kind is unknown",
        Reason::UnknownField => "an optional field is unknown",
        Reason::ModelWide(_) | Reason::ConnectorWide(_) | Reason::CouplingWide(_) => {
            "an id or a port is not below 65536"
        }
        Reason::BatchOfNone => "max_batch_size is 0",
        Reason::LargeBatch => "max_batch_size is above 2^62",
        Reason::NoBatchTime => {
            "max_batch_time is no time: it is below 0, -0.0, above 2^60 or no number"
        }
        Reason::UnknownMetric => "the metric is neither minimum nor maximum",
        Reason::StartIsStop => "the ports start and stop are equal",
        Reason::StartIsAsk => "the ports start and ask are equal",
        Reason::StopIsAsk => "the ports stop and ask are equal",
        Reason::IdTaken(_) => "the id is taken",
        Reason::NoParent => "the parent is not a coupled of an earlier line",
        Reason::TooDeep => "it is deeper than four coupleds",
        Reason::NoOwner => "the owner is not a coupled",
        Reason::NoComponent => "the target is no component of the owner",
    }
}
