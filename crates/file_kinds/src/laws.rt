//! What holds of the table of kinds. Nothing here runs.

ghost use Rattle.file_kinds.specs.Kinds.{OneExtension, OneName, OneType};

/// Law, for any two different kinds of files. `extensions`: they have no extension in common. `names`: no file name is of both kinds.
/// `content_types`: they have no eContentType in common.
pub fn one_kind()
    ensures extensions { OneExtension }
    ensures names { OneName }
    ensures content_types { OneType }
{}
