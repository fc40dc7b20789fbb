//! Calls of the program in memory, and what they stand on.
mod calls;
mod drivers;
mod failing;
mod meet_gate;
mod seats;
mod threads;
mod turns;
mod two_processors;
mod two_seats;
mod upgrade;
mod verdict;
mod waiting;
mod writes;

/// `System` and `A` with half of the time each, and a thread in each that runs forever.
const TWO_EQUAL: &str = r#"version = 1
cpus = 1
window = 10
ticks = 20
partition = [{name = "A", budget = 50}]
thread = [
  {name = "s", program = ["run forever"]},
  {name = "a", partition = "A", program = ["run forever"]},
]
"#;

const TWO_PROCESSORS: &str = r#"version = 1
cpus = 2
window = 10
ticks = 10
partition = [{name = "A", budget = 50}]
thread = [
  {name = "s0", priority = 20, program = ["run forever"]},
  {name = "s1", priority = 20, program = ["run forever"]},
  {name = "a0", partition = "A", program = ["run forever"]},
  {name = "a1", partition = "A", program = ["run forever"]},
]
"#;
