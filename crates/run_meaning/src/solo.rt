ghost use Rattle.run_meaning.specs.SoloLaws.{ClientsAreAlone};

/// Each client is what its own events make of it, with the job log and its user's journal.
pub fn clients_are_alone()
    ensures { ClientsAreAlone }
{}
