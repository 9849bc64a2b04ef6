// Meshes the job sheet on standard input, and writes the mesh as a binary STL to standard output; or the refusal's line.
#![tactic(auto)]

use streams::answer_input;

fn main(rt: HostRuntime) -> anyhow::Result<()> {
    answer_input(&rt, |text, out| stlsheet::stl_sheet(text, out))
}
