// A sheet is read, from its first byte to its last contour.
ghost use Rattle.std.specs.Prelude.{Ok, IfOk, ◌≤◌};
ghost use Rattle.sheet.specs.Reading.{goes_on, BodyReady, read_bytes, ListsReady, ReadAs};

use crate::body::read_body;
use crate::heading::{Heading, read_heading};
use crate::lists::Lists;
use crate::refusal::SheetRefusal;

// A sheet that was read: its heading, and how many contours and vertices stand in the lists.
#[derive(Clone, Copy, Debug, PartialEq, Eq)]
pub struct JobSheet {
    pub heading: Heading,
    pub contours: usize,
    pub vertices: usize,
}

// The lines behind a heading.
fn read_contours(text: &[u8], heading: Heading, lists: &mut Lists) -> Result<JobSheet, SheetRefusal>
    requires { BodyReady text.now heading.at lists.old.lengths lists.old.regions lists.old.codes lists.old.numbers }
    ensures read { ReadAs (goes_on text.now (Ok heading)) result lists.new.lengths lists.new.regions lists.new.codes lists.new.numbers }
    ensures held { ListsReady lists.new.lengths lists.new.regions lists.new.codes lists.new.numbers }
{
    let end = read_body(text, heading.at, lists)?;
    Ok(JobSheet {
        heading,
        contours: end.contours,
        vertices: end.vertices,
    })
}

// What a sheet is found to be. Any bytes may be handed in; the lists have room for 32 contours and 96 vertices, and keep it.
pub fn read_sheet(text: &[u8], lists: &mut Lists) -> Result<JobSheet, SheetRefusal>
    requires { ListsReady lists.old.lengths lists.old.regions lists.old.codes lists.old.numbers }
    ensures read { ReadAs (read_bytes text.now) result lists.new.lengths lists.new.regions lists.new.codes lists.new.numbers }
    ensures counted { IfOk result (λ s. (s.contours ≤ 32) × (s.vertices ≤ 96)) }
    ensures held { ListsReady lists.new.lengths lists.new.regions lists.new.codes lists.new.numbers }
{
    if text.len() > 65536 {
        return Err(SheetRefusal::TooLong);
    }
    let heading = read_heading(text)?;
    read_contours(text, heading, lists)
}
