// Mends the contours of the job sheet on standard input, and writes the sheet to standard output.
#![tactic(auto)]

use streams::answer_input;

fn main(rt: HostRuntime) -> anyhow::Result<()> {
    answer_input(&rt, |text, out| mendsheet::mend_sheet(text, out))
}
