// Runs recorded jobs again, and writes the meshes. Their answers, which the file `stdout` has, were given by the Rust;
// docs/COMPARISON.md says how they were made. A file of data/ has sheets, each with an empty line behind it.
#![tactic(auto)]

ghost use Rattle.std.specs.Prelude.{◌≡◌, ◌<◌, length};
ghost use Rattle.replay.specs.Sheets.{is_gap, EndsAt};

use std::rt::Files;
use std::{fs, io};

// Whether an empty line ends at i.
fn is_gap(text: &[u8], i: usize) -> bool
    requires { (0 < i) × (i < length text.now) }
    ensures { result ≡ is_gap text.now i }
{
    (text[i] == b'\n') & (text[i - 1] == b'\n')
}

// The end of the sheet that begins at `at`: the first empty line behind it, or the end of the text.
fn sheet_end(text: &[u8], at: usize) -> usize
    requires { at < length text.now }
    ensures { EndsAt text.now at result }
{
    for i in at + 1..text.len() {
        if is_gap(text, i) {
            return i;
        }
    }
    text.len()
}

// The answer to one sheet, with an empty line behind it.
fn answer_one(rt: &impl Print, text: &[u8]) -> io::Result<()> {
    let mut out = [0u8; 65536];
    let m = sheet::mesh_sheet(text, &mut out);
    rt.write_all(&out[..m])?;
    rt.write_all(b"\n")
}

// The answers to all sheets of a text.
fn answer_all(rt: &impl Print, text: &[u8]) -> io::Result<()> {
    let mut at = 0;
    while at < text.len() {
        let e = sheet_end(text, at);
        answer_one(rt, &text[at..e])?;
        at = e + 1;
    }
    Ok(())
}

// What is read of a file, in bytes at most.
const FILE_MOST: usize = 524288;

// The answers to all sheets of a file, as far as it is read; where it can't be read, standard error says so.
fn replay(rt: &(impl Files + Print + Eprint + AllocGlobal), name: &str) -> io::Result<()> {
    match fs::read(rt, name) {
        Ok(text) => answer_all(rt, &text[..text.len().min(FILE_MOST)]),
        Err(error) => eprintln!(rt; "{name}: {error}"),
    }
}

fn main(rt: HostRuntime) -> io::Result<()> {
    replay(&rt, "near")?;
    replay(&rt, "far")
}
