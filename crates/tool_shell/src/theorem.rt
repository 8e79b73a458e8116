//! What is known of two calls.

ghost use Rattle.tool_shell.specs.Determined.{FilesDetermineAnswers, LogsDetermineAnswers};

/// Two answered calls with the same words over files that tell the same have one status and one text, unless a write failed.
pub fn files_determine_answers()
    ensures { FilesDetermineAnswers }
{}

/// Two answered calls with the same words whose reads the log has alike have one status and one text, unless a write failed.
pub fn logs_determine_answers()
    ensures { LogsDetermineAnswers }
{}
