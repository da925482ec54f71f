// One acceptance of memory from beginning to end: firmware's pages of mixed mappings, a host that is busy and capped, a walk
// that succeeds and one that a missing page stops, each request printed with its reply.
#![tactic(auto)]

mod report;
mod stretch;

fn main(rt: HostRuntime) -> anyhow::Result<()> {
    stretch::bring_up(&rt)
}
