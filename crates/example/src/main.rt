// Use as a library (README.md): an account of three days with two readings and a cut, and its statement, which the gate compares.
#![tactic(auto)]

use common::Refusal;
use layout::TEXT_MOST;
use std::io;

// Makes the account, and lays out its statement at the start of a buffer; how long the text is.
fn statement_text(text: &mut [u8]) -> Result<usize, Refusal> {
    let weights = [1_000_000u32; 3];
    let mut marks = [0u8; 4];
    let mut counts = [0u64; 4];
    account::open(&weights, &mut marks, &mut counts)?;
    account::reading(&weights, &mut marks, &mut counts, 0, 500)?;
    account::reading(&weights, &mut marks, &mut counts, 3, 600)?;
    account::cut(&weights, &mut marks, &counts, 1)?;
    let mut from = [0u16; 3];
    let mut to = [0u16; 3];
    let mut wh = [0u64; 3];
    let parts = statement::statement(&weights, &marks, &counts, &mut from, &mut to, &mut wh)?;
    Ok(layout::statement_text(&from, &to, &wh, parts, text))
}

fn main(rt: HostRuntime) -> io::Result<()> {
    let mut text = [0u8; TEXT_MOST];
    match statement_text(&mut text) {
        Ok(length) => rt.write_all(&text[..length.min(TEXT_MOST)]),
        Err(refusal) => println!(rt; "refused {} 0", refusal.number()),
    }
}
