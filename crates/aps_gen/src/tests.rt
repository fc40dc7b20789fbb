//! Values worked out by hand from the rule of the draws.
use super::*;
use crate::draws::Draws;
use aps_model::{ChannelId, Op, Policy, Scenario};
use std::test::Fail;

/// Whether thread `i` has this name, partition, priority, policy and program.
fn is_thread(
    scenario: &Scenario,
    i: usize,
    name: &[u8],
    partition: usize,
    priority: u8,
    policy: Policy,
    program: &[Op],
) -> bool {
    let rows = scenario.threads();
    if i >= rows.len() {
        return false;
    }
    let row = &rows[i];
    row.name.text() == name
        && row.partition.index() == partition
        && row.priority == priority
        && row.policy == policy
        && !row.critical
        && row.program.ops() == program
}

#[test]
fn the_first_draw(rt: HostRuntime) -> Result<(), Fail> {
    let mut draws = Draws { state: 7 };
    assert_eq!(rt; draws.draw(8), 6);
    assert_eq!(rt; draws.state, 9_098_160_460_397_411_210);
    Ok(())
}

#[test]
fn a_small_load(rt: HostRuntime) -> Result<(), Fail> {
    let scenario = generate(rt.alloc(), 7, 2, 3, 10)?;
    let shape = scenario.shape();
    assert_eq!(rt;
        (shape.cpus, shape.tick, shape.window, shape.ticks),
        (2, 1_000_000, 100, 10)
    );
    let budgets = [34, 33, 33];
    let rows = scenario.partitions();
    assert_eq!(rt; rows.len(), budgets.len());
    for (row, budget) in rows.iter().zip(budgets) {
        assert_eq!(rt; row.budget, budget);
    }
    assert_eq!(rt; rows[2].name.text(), b"P2".as_slice());
    assert_eq!(rt; scenario.channels().len(), 1);
    assert_eq!(rt; scenario.threads().len(), 12);
    let endless = [Op::Forever];
    let server = [
        Op::Receive(ChannelId::at(0)),
        Op::Run(50_000),
        Op::Reply,
        Op::Repeat,
    ];
    let worker = [Op::Run(645_545), Op::Sleep(2_257_220), Op::Repeat];
    let client = [Op::Send(ChannelId::at(0)), Op::Sleep(473_952), Op::Repeat];
    assert!(rt; is_thread(&scenario, 0, b"srv", 0, 20, Policy::Fifo, &server));
    assert!(rt; is_thread(&scenario, 1, b"t0_0", 0, 14, Policy::Rr, &endless));
    assert!(rt; is_thread(&scenario, 2, b"t0_1", 0, 9, Policy::Rr, &endless));
    assert!(rt; is_thread(&scenario, 3, b"w0", 0, 18, Policy::Fifo, &worker));
    assert!(rt; is_thread(&scenario, 5, b"t1_1", 1, 11, Policy::Fifo, &endless));
    assert!(rt; is_thread(&scenario, 11, b"cl2", 2, 16, Policy::Fifo, &client));
    Ok(())
}

#[test]
fn the_greatest_load(rt: HostRuntime) -> Result<(), Fail> {
    let scenario = generate(rt.alloc(), u64::MAX, 16, 32, 1_000_000)?;
    assert_eq!(rt; scenario.partitions().len(), 32);
    assert_eq!(rt; scenario.partitions()[0].budget, 7);
    assert_eq!(rt; scenario.threads().len(), 576);
    assert_eq!(rt; scenario.threads()[575].name.text(), b"cl31".as_slice());
    Ok(())
}
