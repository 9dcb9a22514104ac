//! Laws of offers to publication points. The functions do nothing: each states a law, which is proved.

ghost use Rattle.points.specs.PointLaws.{NewWhereAcceptable, OneJudgement};

/// Law: an offer to a point is judged `New` if and only if all of this holds. Its manifest is valid, current at the given time, and newer than the
/// one accepted last. No two supplied files have the same name. Each listed file is supplied with the listed hash, and each listed ROA is valid.
pub fn new_where_acceptable()
    ensures { NewWhereAcceptable }
{}

/// Law: an offer has at most one judgement: `New`, `Same`, or one refusal. It depends on what the point accepted last, the manifest, the supplied
/// files and the given time. A refusal includes the index of its file and the fault of its payload. `Memory` is not a judgement: any offer can fail
/// so.
pub fn one_judgement()
    ensures { OneJudgement }
{}
