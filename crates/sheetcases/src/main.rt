// Runs the sheets of data/ one after the other: document 01's, meshes with removals, with merges that a tie or a moved polygon decides, with sides that
// a box must not pass over, one refusal of each number that a sheet can have, the limits, and line ends.
#![tactic(auto)]

use std::fs::File;
use std::io;
use std::rt::Files;
use streams::read_full;

// Writes the case's name, and what is printed for it.
fn case(rt: &(impl Files + Print + Eprint), name: &str) -> io::Result<()> {
    rt.write_all(b"== ")?;
    rt.write_all(name.as_bytes())?;
    rt.write_all(b"\n")?;
    let mut file = match File::open(rt, name) {
        Ok(file) => file,
        Err(error) => return eprintln!(rt; "{name}: {error}"),
    };
    let mut input = [0u8; 65537];
    let n = read_full(&mut file, &mut input)?;
    let mut out = [0u8; 65536];
    let m = sheet::mesh_sheet(&input[..n], &mut out);
    rt.write_all(&out[..m])
}

// Meshes.
fn meshes(rt: &(impl Files + Print + Eprint)) -> io::Result<()> {
    case(rt, "square")?;
    case(rt, "inches")?;
    case(rt, "no_contours")?;
    case(rt, "short_contours")?;
    case(rt, "removal")?;
    case(rt, "closed_hole")?;
    case(rt, "two_regions")?;
    case(rt, "equal_pairs")?;
    case(rt, "last_moves")?;
    case(rt, "boxes_touch")
}

// Refusals of the build, and of the sheet.
fn refusals(rt: &(impl Files + Print + Eprint)) -> io::Result<()> {
    case(rt, "refused_1")?;
    case(rt, "refused_3")?;
    case(rt, "refused_4")?;
    case(rt, "refused_7")?;
    case(rt, "refused_8")?;
    case(rt, "refused_21")?;
    case(rt, "refused_22")?;
    case(rt, "refused_24")?;
    case(rt, "no_length")
}

// The limits, and the ends of lines.
fn limits(rt: &(impl Files + Print + Eprint)) -> io::Result<()> {
    case(rt, "contours_32")?;
    case(rt, "contours_33")?;
    case(rt, "vertices_96")?;
    case(rt, "vertices_97")?;
    case(rt, "bytes_65536")?;
    case(rt, "bytes_65537")?;
    case(rt, "crlf")?;
    case(rt, "no_last_lf")?;
    case(rt, "empty")
}

fn main(rt: HostRuntime) -> io::Result<()> {
    meshes(&rt)?;
    refusals(&rt)?;
    limits(&rt)
}
