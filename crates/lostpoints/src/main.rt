// Writes a line to standard output for each point that the job sheet on standard input loses where its contours are mended.
#![tactic(auto)]

use streams::answer_input;

fn main(rt: HostRuntime) -> anyhow::Result<()> {
    answer_input(&rt, |text, out| mendsheet::lost_sheet(text, out))
}
