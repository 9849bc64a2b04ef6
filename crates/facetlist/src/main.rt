// Reads the binary STL on standard input, and writes its facets as a text to standard output; or the refusal's line.
#![tactic(auto)]

use anyhow::{Context, Result};
use streams::read_full;

fn main(rt: HostRuntime) -> Result<()> {
    // One byte more than a file may have, so that too many show.
    let mut input = [0u8; 65537];
    let n = read_full(&mut rt.stdin(), &mut input).context("standard input")?;
    let mut out = [0u8; 272000];
    let m = facettext::facets_text(&input[..n], &mut out);
    rt.write_all(&out[..m]).context("standard output")
}
