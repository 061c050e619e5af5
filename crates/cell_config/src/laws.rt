//! Laws of configurations, each the contract of a function that does nothing.

ghost use Rattle.std.specs.Prelude.{◌≡◌, ℕ, List, Ok};
ghost use Rattle.toml.specs.Data.{Data, Members};
ghost use Rattle.cell_sensors.specs.Names.{Pair, Scale};
ghost use Rattle.cell_sensors.specs.declared.curve.CurveFault.{CurveFault};
ghost use Rattle.cell_config.specs.ConfigExamples.{ConfigsAreMet};
ghost use Rattle.cell_config.specs.ConfigLaws.{AreCalibrated, LetterLimits, TextLimits};
ghost use Rattle.cell_config.specs.ConfigLaws as laws;
ghost use Rattle.cell_config.specs.PartExamples.{PartsAreMet};
ghost use Rattle.cell_config.specs.RefusalLaws as refusals;
ghost use Rattle.cell_config.specs.SectionExamples.{SectionsAreMet};
ghost use Rattle.cell_config.specs.Settings.{Settings, settings_of};
ghost use Rattle.cell_config.specs.declared.refused_sections.SectionFault.{SectionFault};

use cell_sensors::laws::one_first_fault;

/// A text of more than 2,097,152 bytes is too long, and a schedule of more than 1,000,000 letters
/// out of range, whatever else they contain.
pub fn limits_come_first()
    ensures bytes { (bytes : List ℕ) → TextLimits bytes }
    ensures letters { (text : List ℕ) → LetterLimits text }
{}

/// The letters of a schedule's turns are those of its text. All keys are looked at, and a number is taken just if it is
/// within its limits.
pub fn all_is_read()
    ensures schedules { laws.SchedulesAreRead }
    ensures keys { (key : List ℕ) (value : Data) (others : Members)
        → laws.KeysAreLookedAt key value others }
    ensures numbers { (least most n : ℕ) → laws.NumbersAreWithin least most n }
{}

/// A configuration that is taken gives five scales that fit their axes, and of each its line or a
/// curve near it.
pub fn settings_are_calibrated()
    ensures { (bytes : List ℕ) (settings : Settings) → settings_of bytes ≡ Ok settings
        → AreCalibrated settings }
{}

/// Of a table whose sections are refused one thing alone may be said, and of the pairs of a curve too. It is so: the
/// sections before the one that is named are taken, and the pairs have the fault.
pub fn refusals_are_so()
    ensures one_curve_fault { refusals.OneCurveFault }
    ensures one { refusals.OneRefusal }
    ensures pairs { (line : Scale) (pairs : List Pair) (fault : CurveFault)
        → refusals.PairsAreJudged line pairs fault }
    ensures values { (line : Scale) (values : List Data) (fault : CurveFault)
        → refusals.ValuesAreJudged line values fault }
    ensures first { (table : Members) (fault : SectionFault)
        → refusals.RefusalsAreFirst table fault }
{
    one_first_fault();
}

/// Examples: configurations and what they say, or why they are refused: each key, each kind, both
/// ends of each range, and the first of two faults; the words of each fault, and the bytes read. And their
/// parts in figures.
pub fn configs_are_met()
    ensures configs { ConfigsAreMet }
    ensures parts { PartsAreMet }
{}

/// Examples: sections that are refused, and the only thing that `check_sections` may say of each:
/// the pairs of a curve, the first of two keys, the first of two sections.
pub fn sections_are_met()
    ensures { SectionsAreMet }
{}
