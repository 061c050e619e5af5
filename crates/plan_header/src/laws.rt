//! Laws of what is printed, each the contract of a function that does nothing.

ghost use Rattle.std.specs.Prelude.{ℕ};
ghost use Rattle.plan_header.specs.HeaderExamples.{CapitalsAreMade, HeaderLines, MaskLines, PartyLines};
ghost use Rattle.plan_header.specs.HeaderExamples.{ReadingLines, WholeHeaders};
ghost use Rattle.plan_header.specs.HeaderLaws.{HeadersTell};
ghost use Rattle.plan_header.specs.ModuleExamples.{ModuleLines, WholeModules};
ghost use Rattle.plan_header.specs.NumberLaws.{LinesAreNumbered, NamesAreNumbered, NamesHaveNoBlank};
ghost use Rattle.plan_header.specs.NumberLaws.{NoneIsLeft, WordsShareNoName};
ghost use Rattle.plan_header.specs.PlantHeaderExamples.{PlantLines, PlantTexts};
ghost use Rattle.plan_header.specs.TurnExamples.{TurnLines};
ghost use Rattle.plan_header.specs.TurnLaws.{TurnsTell};

/// Examples: lines of the header of a lift, whole; and names in capitals.
pub fn header_lines_are_met()
    ensures lines { HeaderLines }
    ensures capitals { CapitalsAreMade }
{}

/// Each line of a header and of a module, for all names, numbers and bytes: each byte of a name in capitals, the
/// numbers of names, the machines of zones, places and poses, the bits of fields, how C reads zones, the masks of
/// motors, and the bytes, eight in a line.
pub fn headers_tell()
    ensures { HeadersTell }
{}

/// Examples: lines of headers where hosts, keepers and the machines of poses differ.
pub fn party_lines_are_met()
    ensures { PartyLines }
{}

/// Examples: how C reads zones of two, three, four and five bits.
pub fn readings_are_met()
    ensures { ReadingLines }
{}

/// Examples: the masks of a lift's motors in its header.
pub fn masks_are_printed()
    ensures { MaskLines }
{}

/// Examples: the header of a plan, whole.
pub fn headers_are_whole()
    ensures { WholeHeaders }
{}

/// Examples: lines of modules, and the module of a plan, whole.
pub fn modules_are_met()
    ensures lines { ModuleLines }
    ensures whole { WholeModules }
{}

/// Examples: lines of the headers of words 0, 1 and 15 of a plant, and how the header of a plant of two words begins.
pub fn plant_headers_are_met()
    ensures lines { PlantLines }
    ensures texts { PlantTexts }
{}

/// Which names have the number of their word in the header of a plant, for all texts and names: no two words define one
/// name, and none is left without a number.
pub fn names_are_numbered()
    ensures each { (number : ℕ) → NamesAreNumbered number }
    ensures names { NamesHaveNoBlank }
    ensures lines { LinesAreNumbered }
    ensures apart { WordsShareNoName }
    ensures none_left { NoneIsLeft }
{}

/// Each line of a header for turns, for all names, sensors and steps: the names of each kind as texts, the bits of
/// motors and sensors, the kind, the motors, the object and the sensor of each line of a program, and how many lines it
/// has. Each zone, place, pose and sensor in a line is a word that the header defines.
pub fn turns_tell()
    ensures { TurnsTell }
{}

/// Examples: the names of a lift, the bits of its motors and sensors, and its programs, whole.
pub fn turn_lines_are_met()
    ensures { TurnLines }
{}
