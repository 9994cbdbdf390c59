// A case's numbers as what they stand for.

// The f64 of these bits.
pub(crate) fn float(bits: u64) -> f64 {
    match times::timer_of_bits(bits) {
        Some(timer) => timer,
        None => other(bits),
    }
}

// What is no timer, of those that the cases have: the next above 2^60, four with a sign, and one NaN.
fn other(bits: u64) -> f64 {
    match bits {
        0x43B0_0000_0000_0001 => 1152921504606847232.0,
        0x8000_0000_0000_0000 => -0.0,
        0xBFF0_0000_0000_0000 => -1.0,
        0xC010_0000_0000_0000 => -4.0,
        0xFFF0_0000_0000_0000 => -times::never(),
        _ => times::never() - times::never(),
    }
}

// The times of these bits, laid into the room, where that is enough for them.
pub(crate) fn times_of<'a>(bits: &[u64], room: &'a mut [f64]) -> Option<&'a [f64]> {
    if room.len() < bits.len() {
        return None;
    }
    for (time, bits) in room.iter_mut().zip(bits) {
        *time = float(*bits);
    }
    Some(&room[..bits.len()])
}

pub(crate) fn port(word: u64) -> u16 {
    u16::try_from(word).unwrap_or(0)
}

// A job's name.
pub(crate) fn job(word: u64) -> u32 {
    u32::try_from(word).unwrap_or(0)
}
