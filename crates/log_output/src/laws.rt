//! Laws of the definitions. These functions do nothing: their contracts are the laws.
ghost use Rattle.log_output.specs.Logs.{EachIsOneLine};

/// Law, for each log format, each second and each event: the line of the event has exactly one newline. No text in the event can add a line, whether
/// it comes from a peer or from a file.
pub fn each_is_one_line()
    ensures { EachIsOneLine }
{}
