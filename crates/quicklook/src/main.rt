// Takes one labelled picture from the queue to the quick-look screen, and prints what happened.

#![tactic(auto)]

mod captions;
mod draft;
mod fault;
mod show;
mod story;

fn main(rt: HostRuntime) -> anyhow::Result<()> {
    story::tell(&rt)?;
    Ok(())
}
