//! A scenario with its budgets in parts per thousand.
ghost use Rattle.std.specs.Prelude.{◌≡◌, ◌≤◌, All, IfSome, map};
ghost use Rattle.std.specs.Option.{option_map};
ghost use Rattle.aps_model.specs.declared.command.CommandRow.{CommandRow as Row};
ghost use Rattle.aps_model.specs.Limits.{percent};
ghost use Rattle.aps_model.specs.Partition.{AreRows};
ghost use Rattle.aps_model.specs.Upgrade as spec;
ghost use Rattle.aps_scenario.specs.Upgrading.{IsInHundredths};

use aps_model::{Call, CommandRow, PartitionRow, Scenario};

const PARTS: u16 = 1000;

fn upgrade_rows(rows: &mut Vec<PartitionRow>)
    requires { AreRows percent rows.old.items }
    ensures { rows.new.items ≡ map spec.row_times_ten rows.old.items }
{
    for i in 0..rows.len() {
        rows[i] = upgraded_row(&rows[i]);
    }
}

fn upgraded_row(row: &PartitionRow) -> PartitionRow
    requires budget { row.now.budget ≤ percent }
    requires max { row.now.max ≤ percent }
    ensures { result ≡ spec.row_times_ten row.now }
{
    PartitionRow {
        name: row.name,
        parent: row.parent,
        budget: row.budget * 10,
        critical: row.critical,
        max: row.max * 10,
    }
}

fn times_ten(parts: &Option<u16>) -> Option<u16>
    requires { IfSome parts.now (λ n. n ≤ percent) }
    ensures { result ≡ option_map spec.times_ten parts.now }
{
    match parts {
        Some(parts) => Some(*parts * 10),
        None => None,
    }
}

fn upgraded_call(call: &Call) -> Call
    requires { IsInHundredths call.now }
    ensures { result ≡ spec.call_times_ten call.now }
{
    match call {
        Call::Create {
            name,
            parent,
            budget,
            critical,
            max,
        } => Call::Create {
            name: *name,
            parent: *parent,
            budget: *budget * 10,
            critical: *critical,
            max: *max * 10,
        },
        Call::Modify {
            partition,
            budget,
            critical,
            max,
        } => Call::Modify {
            partition: *partition,
            budget: times_ten(budget),
            critical: *critical,
            max: times_ten(max),
        },
        call => *call,
    }
}

fn upgrade_commands(commands: &mut Vec<CommandRow>)
    requires { All (λ (row : Row). IsInHundredths row.call) commands.old.items }
    ensures { commands.new.items ≡ map (λ (row : Row). record row { call = spec.call_times_ten row.call }) commands.old.items }
{
    for i in 0..commands.len() {
        commands[i].call = upgraded_call(&commands[i].call);
    }
}

/// The scenario with its budgets in parts per thousand: itself where they are so already, and else with each budget
/// and maximum, in rows and commands, times ten. It takes no memory.
pub fn upgrade(scenario: Scenario) -> Scenario
    ensures { result ≡ spec.upgraded scenario }
{
    if scenario.shape().parts == PARTS {
        return scenario;
    }
    let (mut shape, mut partitions, channels, threads, mut commands) = scenario.into_parts();
    shape.parts = PARTS;
    upgrade_rows(&mut partitions);
    upgrade_commands(&mut commands);
    Scenario::new(shape, partitions, channels, threads, commands)
}
