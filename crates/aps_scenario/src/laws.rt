//! Laws of scenarios' texts. Each function states one, and does nothing.
ghost use Rattle.std.specs.Prelude.{◌≡◌, ℕ, List, Ok};
ghost use Rattle.aps_model.specs.Scenario.{Scenario};
ghost use Rattle.aps_model.specs.Upgrade.{upgraded};
ghost use Rattle.aps_model.specs.Valid.{IsScenario};
ghost use Rattle.aps_scenario.specs.Reading.{reads};
ghost use Rattle.aps_scenario.specs.ScenarioText.{scenario_text, upgraded_text};

/// A scenario's text reads as the scenario, so that no two scenarios have the same text.
pub fn text_reads_back()
    ensures back { (s : Scenario) → IsScenario s → reads (scenario_text s) ≡ Ok s }
    ensures apart { (s other : Scenario) → IsScenario s → IsScenario other → scenario_text s ≡ scenario_text other → s ≡ other }
{}

/// Upgrading twice gives the text that upgrading once gives: of each scenario, and of each text that is upgraded to
/// another, which is then upgraded to itself.
pub fn upgraded_text_stays()
    ensures scenario { (s : Scenario) → scenario_text (upgraded (upgraded s)) ≡ scenario_text (upgraded s) }
    ensures text { (bytes text : List ℕ) → upgraded_text bytes ≡ Ok text → upgraded_text text ≡ Ok text }
{}
