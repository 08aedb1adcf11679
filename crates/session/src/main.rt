// Walks two small tasks through the monitor, step by step: a paper review under a book of rows, then a document that is
// handed on by copy flags. A line is a question with its answer, and the steps of the shown run under it; or a step,
// the monitor's answer, and the watched cell after it.
#![tactic(auto)]

mod copies;
mod names;
mod review;
mod walk;

fn main(rt: HostRuntime) -> anyhow::Result<()> {
    review::run(&rt, rt.alloc())?;
    copies::run(&rt, rt.alloc())
}
