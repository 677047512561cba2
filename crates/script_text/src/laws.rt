// What holds of the grammar of a script's lines.
ghost use Rattle.script_text.specs.Laws.{OneCommand, ReadsLines};

/// A line says one command at most, and it is the one that `line_command` finds.
pub fn grammar_laws()
    ensures one { OneCommand }
    ensures read { ReadsLines }
{}
