// The service list.
use crate::{say, values};
use std::io;
use words::word_at;

fn found(rt: &impl Print, time: f64, next: u64) -> io::Result<()> {
    let time = times::bits_of(time);
    print!(rt; ": time {time:016x}, then place {next}")
}

// What stands at a place of the list.
fn read(rt: &impl Print, services: &[f64], place: u64) -> io::Result<()> {
    match atoms::service_time(services, place) {
        Ok((time, next)) => found(rt, time, next),
        Err(why) => say::refusal(rt, why),
    }
}

pub(crate) fn run(rt: &impl Print, asked: &[u64]) -> io::Result<()> {
    let mut room = [0f64; 8];
    let Some(bits) = asked.get(2..) else {
        return Ok(());
    };
    match values::times_of(bits, &mut room) {
        Some(services) => read(rt, services, word_at(asked, 1)),
        None => Ok(()),
    }
}
