//! What the keys of the tables take, and which keys a table may have.
use crate::spot::{Document, Owner};

/// What the key of a table of this kind takes.
pub fn takes(owner: Owner, key: &str) -> &'static str {
    match owner {
        Owner::Top => top_takes(key),
        Owner::Partition => partition_takes(key),
        Owner::Channel => NAME,
        Owner::Thread => thread_takes(key),
        Owner::Command => command_takes(key),
        Owner::Demand => demand_takes(key),
    }
}

const NAME: &str = "a name of 1 to 15 ASCII letters, digits, _ and -";

const PARTS: &str = "a number of parts: 0 to 100 in version 1, 0 to 1000 in version 2";

const MAXIMUM: &str =
    "a number of parts from the budget on: up to 100 in version 1, up to 1000 in version 2";

const CRITICAL: &str = "a number of ns from 0 to 64000000000";

const WINDOW: &str = "a number of ticks from 8 to 400";

const FREE: &str = "\"priority\" or \"ratio\"";

const TRUTH: &str = "true or false";

const BANKRUPTCY: &str = "\"basic\", \"cancel\" or \"reboot\"";

fn top_takes(key: &str) -> &'static str {
    match key {
        "version" => "1 or 2",
        "cpus" => "a number from 1 to 16",
        "tick" => "a number of ns from 100000 to 10000000, a multiple of 1000",
        "window" => WINDOW,
        "ticks" => "a number from 1 to 1000000",
        "call_ns" => "a number of ns from 1 to 100000",
        "free" => FREE,
        "limit" => TRUTH,
        "bankruptcy" => BANKRUPTCY,
        _ => array_takes(key),
    }
}

fn array_takes(key: &str) -> &'static str {
    match key {
        "partition" | "demand" => "an array of at most 31 tables",
        "channel" => "an array of at most 256 tables",
        "thread" | "command" => "an array of at most 1024 tables",
        _ => "a table",
    }
}

fn partition_takes(key: &str) -> &'static str {
    match key {
        "name" => NAME,
        "parent" => "the name of an earlier partition, or System",
        "budget" => PARTS,
        "critical" => CRITICAL,
        "max" => MAXIMUM,
        _ => "a table",
    }
}

fn thread_takes(key: &str) -> &'static str {
    match key {
        "name" => NAME,
        "partition" => "the name of a partition",
        "priority" => "a number from 1 to 255",
        "policy" => "\"fifo\" or \"rr\"",
        "critical" => TRUTH,
        "program" => "an array of 1 to 256 texts",
        _ => "a table",
    }
}

fn command_takes(key: &str) -> &'static str {
    match key {
        "tick" => "a number from 0 to the last tick, which is ticks - 1",
        "do" => DO,
        "name" | "parent" | "partition" => NAME,
        "thread" => "the name of a thread",
        "budget" | "max" => PARTS,
        "critical" => CRITICAL,
        "window" => WINDOW,
        "free" => FREE,
        "limit" => TRUTH,
        "bankruptcy" => BANKRUPTCY,
        _ => "a table",
    }
}

const DO: &str = "create, modify, lookup, query_partition, query_thread, query_parameters, \
    set_parameters, statistics, mark_critical or clear_critical";

fn demand_takes(key: &str) -> &'static str {
    match key {
        "name" => NAME,
        "need" => CRITICAL,
        _ => "a table",
    }
}

/// The keys that a table of this kind may have; those of a command depend on what it does.
pub fn keys_of(document: Document, owner: Owner, does: Option<&str>) -> &'static str {
    match owner {
        Owner::Top => match document {
            Document::Scenario => {
                "version, cpus, tick, window, ticks, call_ns, free, limit, bankruptcy, partition, \
                channel, thread and command"
            }
            Document::Demands => "version, cpus, tick, window and demand",
        },
        Owner::Partition => "name, parent, budget, critical and max",
        Owner::Channel => "name",
        Owner::Thread => "name, partition, priority, policy, critical and program",
        Owner::Command => command_keys(does.unwrap_or("")),
        Owner::Demand => "name and need",
    }
}

fn command_keys(does: &str) -> &'static str {
    match does {
        "create" => "tick, do, name, parent, budget, critical and max",
        "modify" => "tick, do, partition, budget, critical and max",
        "lookup" | "query_partition" | "statistics" => "tick, do and partition",
        "query_thread" | "mark_critical" | "clear_critical" => "tick, do and thread",
        "query_parameters" => "tick and do",
        "set_parameters" => "tick, do, window, free, limit and bankruptcy",
        _ => "tick and do, as long as do names no command",
    }
}

/// Whether this is what some command does.
pub fn names_command(does: &str) -> bool {
    match does {
        "create"
        | "modify"
        | "lookup"
        | "query_partition"
        | "query_thread"
        | "query_parameters"
        | "set_parameters"
        | "statistics"
        | "mark_critical"
        | "clear_critical" => true,
        _ => false,
    }
}
