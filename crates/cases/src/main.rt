// Worked cases that need a table, each printed with what it comes to.
#![tactic(auto)]

mod beside;
mod cases;
mod codes;
mod desk;
mod told;

use beside::{findings_beside_evaluator, values_beside_evaluator};
use cases::{
    floating_turned, inputs_limit, memos_agree, three_parts, two_places, two_places_replayed,
};

fn main(rt: HostRuntime) -> anyhow::Result<()> {
    two_places(&rt)?;
    two_places_replayed(&rt)?;
    inputs_limit(&rt)?;
    three_parts(&rt)?;
    floating_turned(&rt)?;
    memos_agree(&rt)?;
    values_beside_evaluator(&rt)?;
    findings_beside_evaluator(&rt)
}
