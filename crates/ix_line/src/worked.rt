//! What the program's commands make of some words, worked out.
ghost use Rattle.ix_line.specs.WorkedLines.{WorkedFaults, WorkedFlags, WorkedLines, WorkedNames};

/// Some words with the line that they are, and some with the kind of their fault.
pub fn worked_lines()
    ensures lines { WorkedLines }
    ensures flags { WorkedFlags }
    ensures names { WorkedNames }
    ensures faults { WorkedFaults }
{}
