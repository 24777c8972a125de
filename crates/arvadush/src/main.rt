// The program (Case file): a case file from standard input, its statement or its refusal to standard output.
#![tactic(auto)]

use layout::TEXT_MOST;
use profile::Profile;
use report::{BYTES_READ, case_text, read_full};
use std::io;

// Kept: the paper's three buffers, and two of fixed length beside them, since there is no heap.
fn main(rt: HostRuntime) -> io::Result<()> {
    let mut weights = [0u32; Profile::SPAN_MOST];
    let mut marks = [0u8; Profile::SPAN_MOST + 1];
    let mut counts = [0u64; Profile::SPAN_MOST + 1];
    let mut file = [0u8; BYTES_READ];
    let mut text = [0u8; TEXT_MOST];
    let read = read_full(&mut rt.reader(), &mut file)?;
    let length = case_text(
        &file[..read],
        &mut weights,
        &mut marks,
        &mut counts,
        &mut text,
    );
    rt.write_all(&text[..length])
}
