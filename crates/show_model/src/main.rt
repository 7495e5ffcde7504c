// Shows the model in design.model of the current folder, or why it is refused. With a row's number as its
// argument, it shows the steps of that row's process after it.
#![tactic(auto)]

use model::Drafted;
use model_text::show;
use process_text::show_steps;
use std::{env, fs};

// The row that the arguments name, if they name one.
fn row_asked(rt: &HostRuntime) -> anyhow::Result<Option<usize>> {
    let mut words = env::args(rt)?;
    let _ = words.next();
    let row = words.next().map(|word| word.as_str().parse::<usize>());
    Ok(row.transpose()?)
}

fn main(rt: HostRuntime) -> anyhow::Result<()> {
    let heap = rt.alloc();
    // A file that cannot be read is as an empty one.
    let bytes = fs::read(&rt, "design.model").unwrap_or_else(|_| Vec::new(heap));
    let text = show(heap, bytes.as_slice())?;
    rt.print(text)?;
    if let Some(row) = row_asked(&rt)? {
        let model = Drafted::take_up(bytes.as_slice()).settle();
        rt.print(show_steps(heap, &model, row)?)?;
    }
    Ok(())
}
