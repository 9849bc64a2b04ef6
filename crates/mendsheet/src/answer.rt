// A sheet that was read is mended, and its text printed.
ghost use Rattle.std.specs.Prelude.{◌≡◌, ◌≤◌, get_or};
ghost use Rattle.rules.specs.MendCall.{mend_words};
ghost use Rattle.lines.specs.Print.{Printed};
ghost use Rattle.sheet.specs.Room.{out_most};
ghost use Rattle.mendsheet.specs.Mended.{mended_text, MendReady, losses_of, LossesReady};

use crate::lost::put_lost;
use crate::print::put_sheet;
use mend::job::mend_job;
use rules::{MendRefusal, Mended};
use sheet::heading::Heading;

// How many points are lost, by the mender's reply; a refusal, which no sheet gets, loses none.
fn lost_in(reply: Result<Mended, MendRefusal>) -> usize
    ensures { result ≡ get_or (mend_words reply) 1 0 }
{
    match reply {
        Ok(mended) => mended.lost as usize,
        Err(_) => 0,
    }
}

// How many points are kept, in the same way.
fn kept_in(reply: Result<Mended, MendRefusal>) -> usize
    ensures { result ≡ get_or (mend_words reply) 2 0 }
{
    match reply {
        Ok(mended) => mended.kept as usize,
        Err(_) => 0,
    }
}

// The mended sheet of a heading and of the contours in these lists.
pub fn put_mended(
    x: Heading,
    lengths: &mut [u32],
    regions: &[u16],
    codes: &[u8],
    numbers: &mut [u16],
    out: &mut [u8],
) -> usize
    requires { MendReady lengths.old regions.now codes.now numbers.old out.old }
    ensures printed { Printed (mended_text x lengths.old regions.now codes.now numbers.old)
        out.old out.new 0 result }
    ensures short { result ≤ out_most }
{
    let mut list = [0u32; 96];
    let mut work = [0u32; 96];
    let reply = mend_job(lengths, numbers, &mut list, &mut work);
    let kept = kept_in(reply);
    put_sheet(out, x, &lengths[..], regions, codes, &numbers[..kept * 4])
}

// The points that contours of these lengths lose; the lengths in `copy` are mended.
pub fn put_losses(lengths: &[u32], copy: &mut [u32], numbers: &mut [u16], out: &mut [u8]) -> usize
    requires { LossesReady lengths.now copy.old numbers.old out.old }
    ensures printed { Printed (losses_of lengths.now copy.old numbers.old) out.old out.new 0 result }
    ensures short { result ≤ out_most }
{
    let mut list = [0u32; 96];
    let mut work = [0u32; 96];
    let reply = mend_job(copy, numbers, &mut list, &mut work);
    let lost = lost_in(reply);
    put_lost(out, lengths, &list[..lost])
}
