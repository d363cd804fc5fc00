//! What holds of all recorded sessions.
ghost use Rattle.audit_command.specs.Audits.{LegalSessionsAreNotRefused};

/// No recorded sessions that are explained are refused.
pub fn legal_sessions_are_not_refused()
    ensures { LegalSessionsAreNotRefused }
{}
