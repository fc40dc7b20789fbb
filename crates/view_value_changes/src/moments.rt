//! How everything stands at a moment, as the values of the signals of a dump.
ghost use Rattle.std.specs.Prelude.{◌≡◌, ◌++◌, [], ◌∷◌, ◌/◌, ◌<◌, ◌≤◌, length, nat_lt, OnOk};
ghost use Rattle.std.specs.List.{flat_map, range_with_len};
ghost use Rattle.aps_model.specs.Partition.{IsRow};
ghost use Rattle.aps_model.specs.Shape.{IsShape};
ghost use Rattle.laws_runs.specs.Moments.{moment};
ghost use Rattle.aps_core.specs.Run.{state_of_run};
ghost use Rattle.view_value_changes.specs.Moment as spec;
ghost use Rattle.view_shares.specs.Usages.{AreUsagesUpTo};
ghost use Rattle.aps_model.specs.Limits.{most_cpus, most_critical, most_partitions, most_threads};

use crate::kind::Kind;
use crate::told::Told;
use crate::value::Value;
use aps_core::Core;
use aps_model::{
    CpuId, Nanos, NoMemory, PartitionId, PartitionRow, Pick, Shape, ThreadId, has_allowance,
};
use view_shares::Usages;

/// The values of all signals after the entries of the core, for so many partitions, by what was told of these.
pub fn add_values(
    values: &mut Vec<Value>,
    core: &Core,
    usages: &Usages,
    told: &Told,
    count: usize,
) -> Result<(), NoMemory>
    requires up { AreUsagesUpTo core.now usages.now }
    requires few { count ≤ most_partitions }
    ensures { OnOk result (values.new.items ≡ values.old.items ++ spec.moment_values core.now told.now count) }
{
    add_processors(values, core, cpus_of(core))?;
    add_partitions(values, core, usages, told, count)?;
    add_threads(values, core, threads_of(core))
}

/// How many processors there are.
fn cpus_of(core: &Core) -> usize
    ensures same { result ≡ core.now.setup.scenario.shape.cpus }
    ensures few { result ≤ most_cpus }
{
    usize::from(core.history().scenario().shape().cpus)
}

/// How many threads there are.
fn threads_of(core: &Core) -> usize
    ensures same { result ≡ length core.now.setup.scenario.threads }
    ensures few { result ≤ most_threads }
{
    core.history().scenario().threads().len()
}

/// The values of so many processors.
fn add_processors(values: &mut Vec<Value>, core: &Core, count: usize) -> Result<(), NoMemory>
    requires { count ≤ most_cpus }
    ensures { OnOk result (values.new.items ≡ values.old.items ++ flat_map (spec.cpu_values (state_of_run core.now)) (range_with_len 0 count)) }
{
    for c in 0..count {
        add_processor(values, core, c)?;
    }
    Ok(())
}

fn add_processor(values: &mut Vec<Value>, core: &Core, c: usize) -> Result<(), NoMemory>
    requires { c < most_cpus }
    ensures { OnOk result (values.new.items ≡ values.old.items ++ spec.cpu_values (state_of_run core.now) c) }
{
    let cpu = core.cpu(CpuId::at(c));
    add_pick(values, &cpu.running)
}

/// Whom a processor keeps, on whose bill, and whether that is critical time.
fn add_pick(values: &mut Vec<Value>, pick: &Option<Pick>) -> Result<(), NoMemory>
    ensures { OnOk result (values.new.items ≡ values.old.items ++ spec.pick_values pick.now) }
{
    match pick {
        Some(pick) => add_three(
            values,
            Value::Thread(Some(pick.thread)),
            Value::Partition(Some(pick.partition)),
            Value::Bit(pick.critical),
        ),
        None => add_three(
            values,
            Value::Thread(None),
            Value::Partition(None),
            Value::Bit(false),
        ),
    }
}

fn add_three(values: &mut Vec<Value>, a: Value, b: Value, c: Value) -> Result<(), NoMemory>
    ensures { OnOk result (values.new.items ≡ values.old.items ++ a ∷ b ∷ c ∷ []) }
{
    add_one(values, a)?;
    add_one(values, b)?;
    add_one(values, c)
}

fn add_two(values: &mut Vec<Value>, a: Value, b: Value) -> Result<(), NoMemory>
    ensures { OnOk result (values.new.items ≡ values.old.items ++ a ∷ b ∷ []) }
{
    add_one(values, a)?;
    add_one(values, b)
}

/// The values of so many partitions.
fn add_partitions(
    values: &mut Vec<Value>,
    core: &Core,
    usages: &Usages,
    told: &Told,
    count: usize,
) -> Result<(), NoMemory>
    requires up { AreUsagesUpTo core.now usages.now }
    requires few { count ≤ most_partitions }
    ensures { OnOk result (values.new.items
        ≡ values.old.items ++ flat_map (spec.values_of_partition core.now told.now) (range_with_len 0 count)) }
{
    for p in 0..count {
        add_told(values, core, usages, told, p)?;
    }
    Ok(())
}

/// How a partition stands in the window, and what was told of it.
fn add_told(
    values: &mut Vec<Value>,
    core: &Core,
    usages: &Usages,
    told: &Told,
    p: usize,
) -> Result<(), NoMemory>
    requires up { AreUsagesUpTo core.now usages.now }
    requires small { p < most_partitions }
    ensures { OnOk result (values.new.items ≡ values.old.items ++ spec.values_of_partition core.now told.now p) }
{
    add_part(values, core, usages, PartitionId::at(p))?;
    add_two(
        values,
        Value::Bit(told.demand[p]),
        Value::Bit(told.overspent[p]),
    )
}

/// How a partition stands in the window.
fn add_part(
    values: &mut Vec<Value>,
    core: &Core,
    usages: &Usages,
    p: PartitionId,
) -> Result<(), NoMemory>
    requires { AreUsagesUpTo core.now usages.now }
    ensures { OnOk result (values.new.items
        ≡ values.old.items ++ spec.part_values (state_of_run core.now) core.now.entries
        (moment core.now.entries / (state_of_run core.now).shape.tick) p) }
{
    let history = core.history();
    match history.rows().get(p.index()) {
        Some(row) => {
            let used = usages.used(core, p);
            let critical = usages.critical(core, p);
            add_row(values, history.shape(), row, used, critical)
        }
        None => add_none(values),
    }
}

/// How the partition of this row stands, which used so much in the window, of which so much was critical.
fn add_row(
    values: &mut Vec<Value>,
    shape: &Shape,
    row: &PartitionRow,
    used: Nanos,
    critical: Nanos,
) -> Result<(), NoMemory>
    requires shape { IsShape shape.now }
    requires row { IsRow row.now }
    requires few { used ≤ most_critical }
    ensures { OnOk result (values.new.items ≡ values.old.items ++ spec.row_values shape.now row.now used critical) }
{
    let allowance = u64::from(row.budget) * shape.whole() / u64::from(shape.parts);
    let is_funded = has_allowance(used, row.budget, shape);
    let stands = critical < row.critical;
    add_three(
        values,
        Value::Number(used),
        Value::Number(allowance),
        Value::Number(critical),
    )?;
    add_two(values, Value::Bit(is_funded), Value::Bit(stands))
}

/// What is told where there is no partition.
fn add_none(values: &mut Vec<Value>) -> Result<(), NoMemory>
    ensures { OnOk result (values.new.items ≡ values.old.items ++ spec.no_values) }
{
    add_three(values, Value::Number(0), Value::Number(0), Value::Number(0))?;
    add_two(values, Value::Bit(false), Value::Bit(false))
}

/// The values of so many threads.
fn add_threads(values: &mut Vec<Value>, core: &Core, count: usize) -> Result<(), NoMemory>
    requires { count ≤ most_threads }
    ensures { OnOk result (values.new.items
        ≡ values.old.items ++ flat_map (spec.values_of_thread (state_of_run core.now)) (range_with_len 0 count)) }
{
    for x in 0..count {
        add_thread(values, core, x)?;
    }
    Ok(())
}

fn add_thread(values: &mut Vec<Value>, core: &Core, x: usize) -> Result<(), NoMemory>
    requires { x < most_threads }
    ensures { OnOk result (values.new.items ≡ values.old.items ++ spec.values_of_thread (state_of_run core.now) x) }
{
    let thread = core.thread(ThreadId::at(x));
    add_one(values, Value::Kind(Kind::of(thread.state)))
}

fn add_one(values: &mut Vec<Value>, value: Value) -> Result<(), NoMemory>
    ensures { OnOk result (values.new.items ≡ values.old.items ++ value ∷ []) }
{
    // the check wants the types in an item named in the function that appends it
    let _named: (Option<ThreadId>, Option<PartitionId>) = (None, None);
    values.push(value)?;
    Ok(())
}
