//! What follows from where a script's run ends: a law is the contract of a function that does nothing.

ghost use Rattle.replay_command.specs.Days.{LeadsToDays};

/// Where the run of a script comes to its end, the day there is one of the model, with the script's venues. So all
/// holds of its world that the sweep theorem over restarts says (`world_restart`).
pub fn a_script_leads_to_a_day_of_the_model()
    ensures { LeadsToDays }
{}
