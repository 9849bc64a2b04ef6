// Checks the printed mesh on standard input, and writes the verdict to standard output.
#![tactic(auto)]

use streams::answer_input;

fn main(rt: HostRuntime) -> anyhow::Result<()> {
    answer_input(&rt, |text, out| checksheet::check_sheet(text, out))
}
