//! Laws: calls that run nothing, for what their contracts say.
ghost use Rattle.std.specs.Prelude.{List};
ghost use Rattle.plan.specs.Samples.Question.{Question};
ghost use Rattle.cover.specs.Cover.{AreCovered, Covered as CoveredData, IsCover};
ghost use Rattle.cover.specs.Wanted.{Wanted as WantedData};

/// Each line of a cover is the first sample that has what the line is for, which the sample of no line before it has; each wanted
/// thing is had by the sample of a line or is missed; and what is missed is in no sample.
pub fn lines_cover()
    ensures { (q : Question) (wanted : List WantedData) (c : CoveredData) → AreCovered q wanted c → IsCover q wanted c }
{}
