//! The threads of a generated scenario.
ghost use Rattle.std.specs.Prelude.{◌≡◌, ◌<◌, ◌≤◌, ◌++◌, [], ◌∷◌, OnOk, IfOk};
ghost use Rattle.aps_gen.specs.Draws.{next};
ghost use Rattle.aps_gen.specs.Generated as spec;
ghost use Rattle.aps_model.specs.Limits.{last_cpu, last_partition, most_cpus, most_partitions};

use crate::draws::Draws;
use crate::names::{client_name, endless_name, worker_name};
use aps_model::{ChannelId, Name, NoMemory, Op, PartitionId, Policy, Program, ThreadRow};
use std::alloc::Global;

fn server(alloc: Global) -> Result<ThreadRow, NoMemory>
    ensures { IfOk result (λ thread. thread ≡ spec.server) }
{
    let Ok(name) = Name::new(b"srv") else {
        unreachable!()
    };
    let mut ops = Vec::with_capacity(alloc, 4)?;
    ops.push(Op::Receive(ChannelId::at(0)))?;
    ops.push(Op::Run(50_000))?;
    ops.push(Op::Reply)?;
    ops.push(Op::Repeat)?;
    Ok(ThreadRow {
        name,
        partition: PartitionId::at(0),
        priority: 20,
        policy: Policy::Fifo,
        critical: false,
        program: Program::new(ops),
    })
}

/// Endless thread `j` of partition `i`.
fn endless(alloc: Global, draws: &mut Draws, i: u8, j: u8) -> Result<ThreadRow, NoMemory>
    requires partition { i ≤ last_partition }
    requires thread { j ≤ last_cpu }
    ensures thread { IfOk result (λ thread. thread ≡ spec.endless i j draws.old.state) }
    ensures drawn { OnOk result (draws.new.state ≡ next (next draws.old.state)) }
{
    let priority = 8 + draws.draw(8) as u8;
    let policy = if draws.draw(2) == 1 {
        Policy::Rr
    } else {
        Policy::Fifo
    };
    let name = endless_name(alloc, i, j)?;
    let ops = vec![in alloc; Op::Forever]?;
    Ok(ThreadRow {
        name,
        partition: PartitionId::at(usize::from(i)),
        priority,
        policy,
        critical: false,
        program: Program::new(ops),
    })
}

/// The worker of partition `i`, which runs and sleeps by turns.
fn worker(alloc: Global, draws: &mut Draws, i: u8) -> Result<ThreadRow, NoMemory>
    requires { i ≤ last_partition }
    ensures thread { IfOk result (λ thread. thread ≡ spec.worker i draws.old.state) }
    ensures drawn { OnOk result (draws.new.state ≡ spec.after_worker draws.old.state) }
{
    let run = 100_000 + draws.draw(900_000);
    let sleep = 1 + draws.draw(5_000_000);
    let name = worker_name(alloc, i)?;
    let ops = vec![in alloc; Op::Run(run), Op::Sleep(sleep), Op::Repeat]?;
    Ok(ThreadRow {
        name,
        partition: PartitionId::at(usize::from(i)),
        priority: 18,
        policy: Policy::Fifo,
        critical: false,
        program: Program::new(ops),
    })
}

/// The client of partition `i`, which asks the server and sleeps by turns.
fn client(alloc: Global, draws: &mut Draws, i: u8) -> Result<ThreadRow, NoMemory>
    requires { i ≤ last_partition }
    ensures thread { IfOk result (λ thread. thread ≡ spec.client i draws.old.state) }
    ensures drawn { OnOk result (draws.new.state ≡ next draws.old.state) }
{
    let sleep = 1 + draws.draw(9_000_000);
    let name = client_name(alloc, i)?;
    let ops = vec![in alloc; Op::Send(ChannelId::at(0)), Op::Sleep(sleep), Op::Repeat]?;
    Ok(ThreadRow {
        name,
        partition: PartitionId::at(usize::from(i)),
        priority: 16,
        policy: Policy::Fifo,
        critical: false,
        program: Program::new(ops),
    })
}

/// Adds the endless threads of partition `i`, one for each processor.
fn add_endless(
    alloc: Global,
    threads: &mut Vec<ThreadRow>,
    draws: &mut Draws,
    cpus: u8,
    i: u8,
) -> Result<(), NoMemory>
    requires cpus { cpus ≤ most_cpus }
    requires partition { i ≤ last_partition }
    ensures threads { OnOk result (threads.new.items ≡ threads.old.items ++ spec.endless_from i 0 cpus draws.old.state) }
    ensures drawn { OnOk result (draws.new.state ≡ spec.after_endless cpus draws.old.state) }
{
    for j in 0..cpus {
        threads.push(endless(alloc, draws, i, j)?)?;
    }
    Ok(())
}

/// Adds the client of partition `i`, if it isn't the root.
fn add_client(
    alloc: Global,
    threads: &mut Vec<ThreadRow>,
    draws: &mut Draws,
    i: u8,
) -> Result<(), NoMemory>
    requires { i ≤ last_partition }
    ensures threads { OnOk result (threads.new.items ≡ threads.old.items ++ spec.clients i draws.old.state) }
    ensures drawn { OnOk result (draws.new.state ≡ spec.after_clients i draws.old.state) }
{
    if i > 0 {
        threads.push(client(alloc, draws, i)?)?;
    }
    Ok(())
}

/// Adds the threads of partition `i`.
fn add_partition(
    alloc: Global,
    threads: &mut Vec<ThreadRow>,
    draws: &mut Draws,
    cpus: u8,
    i: u8,
) -> Result<(), NoMemory>
    requires cpus { cpus ≤ most_cpus }
    requires partition { i ≤ last_partition }
    ensures threads { OnOk result (threads.new.items ≡ threads.old.items ++ spec.partition_threads cpus i draws.old.state) }
    ensures drawn { OnOk result (draws.new.state ≡ spec.after_partition cpus i draws.old.state) }
{
    add_endless(alloc, threads, draws, cpus, i)?;
    threads.push(worker(alloc, draws, i)?)?;
    add_client(alloc, threads, draws, i)
}

/// All threads, the server first.
pub fn thread_rows(
    alloc: Global,
    seed: u64,
    cpus: u8,
    partitions: u8,
) -> Result<Vec<ThreadRow>, NoMemory>
    requires cpus { cpus ≤ most_cpus }
    requires partitions { partitions ≤ most_partitions }
    ensures { IfOk result (λ v. v.items ≡ spec.server ∷ spec.generated_threads cpus 0 partitions seed) }
{
    let mut draws = Draws { state: seed };
    let mut threads = Vec::new(alloc);
    threads.push(server(alloc)?)?;
    for i in 0..partitions {
        add_partition(alloc, &mut threads, &mut draws, cpus, i)?;
    }
    Ok(threads)
}
