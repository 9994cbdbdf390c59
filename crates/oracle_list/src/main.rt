// Replays the answers that the published Rust gave to random scripts: `stdin`, written by oracle/write_list.py with the oracle at hand (oracle/README.md says how, and what its lines say). Here is no Rust: each call is made on lent words through the functions that C calls, and what it returns, its rows and the whole lent state after it are compared with what the oracle answered. A case that differs is printed with its number, the number of its call and the place; the last line counts.
#![tactic(auto)]

mod calls;
mod case;
mod lines;
mod list;
mod say;
mod sheets;

use std::io;

fn main(rt: HostRuntime) -> io::Result<()> {
    let mut text = [0u8; 65536];
    let total = list::replay(&rt, &mut rt.reader(), &mut text)?;
    say::total(&rt, total)
}
