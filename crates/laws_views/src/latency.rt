//! What `latency` counts as served is what servers ran.
ghost use Rattle.std.specs.Prelude.{◌≡◌, ℕ, ◌+◌, List, length};
ghost use Rattle.std.specs.List.{range_with_len, sum_by};
ghost use Rattle.aps_model.specs.declared.entry.Entry.{Entry};
ghost use Rattle.aps_model.specs.declared.entry.Order.{Order};
ghost use Rattle.aps_model.specs.Legal.{IsLegal};
ghost use Rattle.aps_model.specs.Scenario.{Scenario};
ghost use Rattle.aps_model.specs.Valid.{IsScenario};
ghost use Rattle.view_latency.specs.Answered.{answered_at};
ghost use Rattle.view_latency.specs.Calls.{calls_of};
ghost use Rattle.laws_views.specs.Served.{own_time, run_time, served_in_all, served_since, served_time};

/// A server's time is that which counts for the calls of all threads, and its own: what it ran while it held no client. Nothing
/// counts for two calls, and nothing is left out.
pub fn servers_run_for_clients()
    ensures { (scenario : Scenario) (order : Order) (h : List Entry) (server : ℕ) → IsScenario scenario → IsLegal scenario order h
        → sum_by (served_time scenario h server) (range_with_len 0 (length scenario.threads)) + own_time scenario h server
        ≡ run_time h server }
{}

/// The time that counts for the calls of a thread, those that were answered and the one that goes on, is what servers ran on them.
pub fn calls_count_what_servers_run()
    ensures { (scenario : Scenario) (order : Order) (h : List Entry) (x : ℕ) → IsScenario scenario → IsLegal scenario order h
        → served_in_all (calls_of scenario h x)
        ≡ sum_by (λ server. served_time scenario h server x) (range_with_len 0 (length scenario.threads)) }
{}

/// So it is of what is told: the lines `served` of a thread, one for each channel that answered it, tell together what servers ran on
/// its answered calls, and with what they ran on its open call that is all that they ran for it (ns).
pub fn served_lines_add_up()
    ensures { (scenario : Scenario) (order : Order) (h : List Entry) (x : ℕ) → IsScenario scenario → IsLegal scenario order h
        → sum_by (λ c. (answered_at c (calls_of scenario h x).ended).served) (range_with_len 0 (length scenario.channels))
        + served_since (calls_of scenario h x).current
        ≡ sum_by (λ server. served_time scenario h server x) (range_with_len 0 (length scenario.threads)) }
{}
