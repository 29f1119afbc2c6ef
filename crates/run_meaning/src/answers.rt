ghost use Rattle.run_meaning.specs.AnswerLaws.{AloneIsLegal, AloneIsSolo, AnswersSuffice, CompleteAnswersSuffice, PlayedIsSolo};

/// The lines and certificates of a client are those of the commands that it carried out, with the answers that its own events
/// name.
pub fn clients_are_solo()
    ensures alone { AloneIsSolo }
    ensures played { PlayedIsSolo }
{}

/// In two plays, whatever the events of others, a client that got the same answers has the same lines and certificates: where
/// it carried out as many commands, so where both are complete.
pub fn answers_suffice()
    ensures carried { AnswersSuffice }
    ensures complete { CompleteAnswersSuffice }
{}

/// Where the log is closed, an event with which a client alone goes on is legal, and makes of the client the same.
pub fn events_of_one_alone_are_legal()
    ensures { AloneIsLegal }
{}
