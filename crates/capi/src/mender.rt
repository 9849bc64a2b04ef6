// The mender.
ghost use Rattle.std.specs.Prelude.{◌≡◌, length, get_or};
ghost use Rattle.rules.specs.MendCall.{mend_outcome, mend_reply_of, mend_refusal_number, mend_words, mend_exit, one_contour};
ghost use Rattle.mend.specs.Call.{lent_of};
ghost use Rattle.capi.specs.Numbers.{three_length};

use crate::three::put_three;
use mend::job::{mend, mend_job};
use rules::{MendRefusal, Mended};

// The number of a mender's refusal.
fn mend_refusal_number(refusal: MendRefusal) -> u32
    ensures { result ≡ mend_refusal_number refusal }
{
    match refusal {
        MendRefusal::NotWhole => 80,
        MendRefusal::LengthsDisagree => 2,
        MendRefusal::ShortScratch => 82,
        MendRefusal::ListFull => 81,
    }
}

// The numbers of a mender's reply; the result is the reply's number.
fn put_mended(reply: Result<Mended, MendRefusal>, words: &mut [u64]) -> u32
    requires { length words.old ≡ three_length }
    ensures { (result ≡ get_or (mend_words reply) 0 0) × (words.new ≡ mend_words reply) }
{
    match reply {
        Ok(mended) => put_three(words, 0, mended.lost, mended.kept),
        Err(refusal) => put_three(words, mend_refusal_number(refusal), 0, 0),
    }
}

// One contour is mended, as `mend` does it: `numbers` take the points that are kept, `lost` the numbers of those that are lost. `answer`
// takes the reply's number, its second and its third. The result is the reply's number.
#[unsafe(no_mangle)]
pub extern "C" fn mittencrest_mend_v1(
    numbers: &mut [u16],
    lost: &mut [u32],
    work: &mut [u32],
    answer: &mut [u64; 3],
) -> u32
    ensures result { result ≡ get_or (mend_words (mend_reply_of (mend_outcome (one_contour numbers.old lost.old work.old)))) 0 0 }
    ensures answer { answer.new ≡ mend_words (mend_reply_of (mend_outcome (one_contour numbers.old lost.old
        work.old))) }
    ensures numbers { numbers.new ≡ (mend_exit (one_contour numbers.old lost.old work.old)).numbers }
    ensures lost { lost.new ≡ (mend_exit (one_contour numbers.old lost.old work.old)).list }
    ensures work { work.new ≡ (mend_exit (one_contour numbers.old lost.old work.old)).work }
{
    let reply = mend(numbers, lost, work);
    put_mended(reply, answer)
}

// The contours of a job are mended, as `mend_job` does it.
#[unsafe(no_mangle)]
pub extern "C" fn mittencrest_mend_job_v1(
    lengths: &mut [u32],
    numbers: &mut [u16],
    lost: &mut [u32],
    work: &mut [u32],
    answer: &mut [u64; 3],
) -> u32
    ensures result { result ≡ get_or (mend_words (mend_reply_of (mend_outcome
        (lent_of lengths.old numbers.old lost.old work.old)))) 0 0 }
    ensures answer { answer.new ≡ mend_words (mend_reply_of (mend_outcome
        (lent_of lengths.old numbers.old lost.old work.old))) }
    ensures words { lent_of lengths.new numbers.new lost.new work.new ≡ mend_exit
        (lent_of lengths.old numbers.old lost.old work.old) }
{
    let reply = mend_job(lengths, numbers, lost, work);
    put_mended(reply, answer)
}
