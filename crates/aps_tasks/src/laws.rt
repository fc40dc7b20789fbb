//! The calls on tasks beside the parts of a step on the scheduler state.
ghost use Rattle.std.specs.Prelude.{◌≡◌, ℕ, Some};
ghost use Rattle.aps_model.specs.declared.state.Pick.{Pick};
ghost use Rattle.aps_model.specs.declared.state.State.{State};
ghost use Rattle.aps_model.specs.declared.state.State.TheVariants.{Running};
ghost use Rattle.aps_model.specs.Bill.{spend};
ghost use Rattle.aps_model.specs.Opening.{opening};
ghost use Rattle.aps_model.specs.Operation.{with_stamped};
ghost use Rattle.aps_model.specs.Scenario.{Scenario, op_at};
ghost use Rattle.aps_model.specs.SchedulerState.{SchedulerState, thread_at, with_state};
ghost use Rattle.aps_model.specs.Step.{enter_next, give_back};
ghost use Rattle.aps_tasks.specs.Calls.{operation_advanced, given_back, restamped, time_passed};
ghost use Rattle.aps_tasks.specs.Start.{start_tasks, task_of};
ghost use Rattle.aps_tasks.specs.Tasks.{Tasks, op_of, task_at, tasks_with_state as with_task_state};
ghost use Rattle.aps_tasks.specs.Tied.{AreTasksTied};

/// Tasks that are tied to a scheduler state have its threads' states, places, times and stamps, and their operations.
pub fn tied_tasks_are_the_threads()
    ensures opening { (scenario : Scenario) → AreTasksTied scenario (opening scenario) (start_tasks scenario) }
    ensures tasks { (scenario : Scenario) (s : SchedulerState) (t : Tasks) (x : ℕ)
        → AreTasksTied scenario s t
        → task_at t x ≡ task_of (thread_at s x) }
    ensures ops { (scenario : Scenario) (s : SchedulerState) (t : Tasks) (x : ℕ)
        → AreTasksTied scenario s t
        → op_of t x ≡ op_at scenario x (thread_at s x).place }
{}

/// Each call on tied tasks leaves them tied to what the same part of a step leaves of the scheduler state.
pub fn calls_follow_the_step()
    ensures state { (scenario : Scenario) (s : SchedulerState) (t : Tasks) (x : ℕ) (state : State)
        → AreTasksTied scenario s t
        → AreTasksTied scenario (with_state s x state) (with_task_state t x state) }
    ensures stamp { (scenario : Scenario) (s : SchedulerState) (t : Tasks) (x : ℕ)
        → AreTasksTied scenario s t
        → AreTasksTied scenario (with_stamped s x (thread_at s x)) (restamped t x) }
    ensures spend { (scenario : Scenario) (s : SchedulerState) (t : Tasks) (ns : ℕ) (pick : Pick)
        → AreTasksTied scenario s t
        → AreTasksTied scenario (spend s ns (Some pick)) (time_passed t pick.thread ns) }
    ensures give_back { (scenario : Scenario) (s : SchedulerState) (t : Tasks) (x : ℕ)
        → AreTasksTied scenario s t
        → AreTasksTied scenario (give_back scenario s x (thread_at s x).state) (given_back t x (task_at t x).state) }
    ensures enter { (scenario : Scenario) (s : SchedulerState) (t : Tasks) (x now c : ℕ)
        → AreTasksTied scenario s t
        → (thread_at s x).state ≡ Running c
        → AreTasksTied scenario (enter_next scenario s x now (op_at scenario x (thread_at s x).place) (Running c)) (operation_advanced t x now) }
{}
