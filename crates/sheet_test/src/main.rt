// The cases that are easy to get wrong, each with what reading answers: number and line of the fault, nodes, marks, the byte
// where the lifts begin, lifts. Then the refused sheets of standard input, each as a key says it.
#![tactic(auto)]

mod cases;
mod vectors;

use std::io;

fn main(rt: HostRuntime) -> io::Result<()> {
    cases::example(&rt)?;
    cases::ends(&rt)?;
    cases::past_the_end(&rt)?;
    cases::order(&rt)?;
    cases::trees(&rt)?;
    cases::intersections(&rt)?;
    cases::intersection_lines(&rt)?;
    cases::marks(&rt)?;
    cases::groups(&rt)?;
    cases::fields(&rt)?;
    cases::group_limits(&rt)?;
    cases::lifts(&rt)?;
    cases::lift_fields(&rt)?;
    cases::bytes(&rt)?;
    cases::nodes(&rt)?;
    cases::one_node_more(&rt)?;
    cases::no_node_more(&rt)?;
    cases::different_groups(&rt)?;
    cases::sizes(&rt)?;
    vectors::refusals(&rt)
}
