// The mender: a job's contours, or one contour, are mended in place.
ghost use Rattle.std.specs.Prelude.{◌&&◌, ◌≡◌, leb, eqb, length};
ghost use Rattle.rules.specs.Job.{sum_over};
ghost use Rattle.rules.specs.MendCall.{longest, mend_outcome, mend_reply_of, mend_exit, one_contour};
ghost use Rattle.mend.specs.Call.{lent_of, WriteReady, Written, MendReady, Ended};

use crate::contours::{count_lost, mend_all};
use checks::counts::{JOB_STRIDE, MOST_CONTOURS, count_all};
use rules::{MendRefusal, Mended};
use words::fill::fill;

// More vertices than this have numbers that no word of the list holds.
const MOST_VERTICES: usize = 4294967295;

// Whether the lengths are those of n vertices. They are counted before they are summed, so that no sum wraps.
fn lengths_agree(lengths: &[u32], n: usize) -> bool
    ensures { result ≡ (leb (length lengths.now) 65535 && eqb (sum_over (λ k. k) lengths.now) n) }
{
    if MOST_CONTOURS < lengths.len() {
        return false;
    }
    count_all(lengths) == n
}

// The longest contour.
fn longest_of(lengths: &[u32]) -> usize
    ensures { result ≡ longest lengths.now }
{
    let mut most = 0;
    for n in lengths {
        most = most.max(*n as usize);
    }
    most
}

// The list has room: the contours are mended, freed numbers become 0, and so do the scratch's first `most` words.
fn write(
    lengths: &mut [u32],
    numbers: &mut [u16],
    list: &mut [u32],
    work: &mut [u32],
    most: usize,
) -> Result<Mended, MendRefusal>
    requires { WriteReady lengths.old numbers.old list.old work.old most }
    ensures { Written result (lent_of lengths.old numbers.old list.old work.old)
        (lent_of lengths.new numbers.new list.new work.new) }
{
    let all = mend_all(lengths, numbers, list, work);
    let at = all.kept * JOB_STRIDE;
    fill(numbers, at, numbers.len() - at, 0);
    fill(work, 0, most, 0);
    Ok(Mended {
        lost: all.lost as u64,
        kept: all.kept as u64,
    })
}

// What is lost is counted first, and nothing is written if the list has no room for it.
fn mend_checked(
    lengths: &mut [u32],
    numbers: &mut [u16],
    list: &mut [u32],
    work: &mut [u32],
    most: usize,
) -> Result<Mended, MendRefusal>
    requires { MendReady lengths.old numbers.old work.old most }
    ensures { Ended result (lent_of lengths.old numbers.old list.old work.old)
        (lent_of lengths.new numbers.new list.new work.new) }
{
    let lost = count_lost(lengths, numbers, list, work);
    if list.len() < lost {
        fill(work, 0, most, 0);
        return Err(MendRefusal::ListFull);
    }
    write(lengths, numbers, list, work, most)
}

// The contours of a job are mended: `lengths` and `numbers` take the points that are kept, `list` the numbers of those that are lost. The
// scratch has to have a word for each vertex of the longest contour. Any numbers may be handed in.
pub fn mend_job(
    lengths: &mut [u32],
    numbers: &mut [u16],
    list: &mut [u32],
    work: &mut [u32],
) -> Result<Mended, MendRefusal>
    ensures reply { result ≡ mend_reply_of (mend_outcome (lent_of lengths.old numbers.old list.old work.old)) }
    ensures words { lent_of lengths.new numbers.new list.new work.new ≡ mend_exit
        (lent_of lengths.old numbers.old list.old work.old) }
{
    let n = numbers.len() / JOB_STRIDE;
    if n * JOB_STRIDE < numbers.len() {
        return Err(MendRefusal::NotWhole);
    }
    if lengths_agree(lengths, n) {
        let most = longest_of(lengths);
        if (work.len() < most) | (MOST_VERTICES < n) {
            return Err(MendRefusal::ShortScratch);
        }
        return mend_checked(lengths, numbers, list, work, most);
    }
    Err(MendRefusal::LengthsDisagree)
}

// One contour is mended, which has all the numbers.
pub fn mend(numbers: &mut [u16], list: &mut [u32], work: &mut [u32]) -> Result<Mended, MendRefusal>
    ensures reply { result ≡ mend_reply_of (mend_outcome (one_contour numbers.old list.old work.old)) }
    ensures numbers { numbers.new ≡ (mend_exit (one_contour numbers.old list.old work.old)).numbers }
    ensures list { list.new ≡ (mend_exit (one_contour numbers.old list.old work.old)).list }
    ensures work { work.new ≡ (mend_exit (one_contour numbers.old list.old work.old)).work }
{
    let n = numbers.len() / JOB_STRIDE;
    if n * JOB_STRIDE < numbers.len() {
        return Err(MendRefusal::NotWhole);
    }
    if MOST_VERTICES < n {
        return Err(MendRefusal::ShortScratch);
    }
    let mut lengths = [n as u32];
    mend_job(&mut lengths, numbers, list, work)
}
