// Meshes the job sheet on standard input, and writes the text to standard output.
#![tactic(auto)]

use streams::answer_input;

fn main(rt: HostRuntime) -> anyhow::Result<()> {
    answer_input(&rt, |text, out| sheet::mesh_sheet(text, out))
}
