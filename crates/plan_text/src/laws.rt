//! The laws of words. Each function's contract is one.
ghost use Rattle.std.specs.Prelude.{ℕ, List};
ghost use Rattle.plan_types.specs.declared.call.Call.{Call};
ghost use Rattle.plan_types.specs.declared.posture.Posture.{Posture};
ghost use Rattle.plan_text.specs.Examples as examples;
ghost use Rattle.plan_text.specs.HistoryExamples as histories;
ghost use Rattle.plan_text.specs.HistoryLaws as history_laws;
ghost use Rattle.plan_text.specs.Laws as laws;
ghost use Rattle.plan_text.specs.Named.{Named};
ghost use Rattle.plan_text.specs.Names.{Text};
ghost use Rattle.plan_text.specs.RecordLaws as record_laws;
ghost use Rattle.plan_text.specs.ScriptExamples as scripts;
ghost use Rattle.plan_text.specs.ScriptLaws as script_laws;
ghost use Rattle.plan_text.specs.TextLaws as text_laws;
ghost use Rattle.plan_text.specs.declared.calls.Verb.{Verb};
ghost use Rattle.plan_text.specs.declared.request.Request.{Request};
ghost use Rattle.plan_rules.specs.declared.state.State.{State};
ghost use Rattle.csv_rows.specs.Rows.{Row};
ghost use Rattle.csv_rows.specs.declared.script_end.ScriptFault.{ScriptFault};
ghost use Rattle.plan_text.specs.WordExamples as words;

/// These words tell the verbs, and the verbs are read of them.
pub fn verbs_have_words()
    ensures { laws.VerbsHaveWords }
{}

/// These words tell the postures, and the postures are read of them.
pub fn postures_have_words()
    ensures { laws.PosturesHaveWords }
{}

/// The text of a call has the words of which the call is read.
pub fn calls_are_told_as_read()
    ensures { laws.CallsAreToldAsRead }
{}

/// The words `watch`, `free` and `start` and those of calls are taken: no machine may have one of them as its name.
pub fn words_are_taken()
    ensures { laws.WordsAreTaken }
{}

/// A machine that has a pose of some name means that one, also where another machine's pose has the name; one that has
/// none means another's. A name is that of the watch or of a machine. And what this law and the one before the last say
/// of one machine.
pub fn own_poses_come_first()
    ensures first { laws.OwnPosesComeFirst }
    ensures others { (n : Named) (machine pose : ℕ) (name : Text)
        → laws.OthersHaveNames n machine pose name }
    ensures of_one { (n : Named) (name : Text) (c : Call) → laws.LawsOfWords n name c }
{}

/// The text of each call and each answer, and of what calls are read: of any plan, whatever the names and the
/// numbers.
pub fn texts_are_by_number()
    ensures names { (name : Text) (names : List Text) (number : ℕ) → laws.NamesAreInOrder name names number }
    ensures numbers { (names : List Text) (name : Text) (number : ℕ)
        → laws.NamesHaveNumbers names name number }
    ensures calls { (n : Named) (number : ℕ) → laws.CallsByNumber n number }
    ensures answers { (n : Named) (number : ℕ) (posture : Posture) → laws.AnswersByNumber n number posture }
{}

/// The call in any record, the start in record 0, and the answers to any records, in the state that those before them
/// have left, whatever their numbers; a script's answers are those to its records.
pub fn records_are_answered()
    ensures read { (n : Named) (machine : ℕ) (who word name : Text) (verb : Verb) (call : Call) (rest : Row)
        → script_laws.RecordsAreRead n machine who word name verb call rest }
    ensures answered { (n : Named) (done : ℕ) (s : State) (row : Row) (rows : List Row) (r : Request)
        → script_laws.RecordsAreAnswered n done s row rows r }
    ensures starts { (count : ℕ) (digits field : Text) (stamp : ℕ)
        → script_laws.StartsAreOfDigits count digits field stamp }
    ensures scripts { (n : Named) (s : State) (row : Row) (rows : List Row) (fault : ScriptFault)
        (script : Text) → script_laws.ScriptsAreOfRecords n s row rows fault script }
{}

/// Which texts are names, and which are taken: of any text, whatever its bytes and its length. A text is read as a verb
/// or a posture only if it is its word.
pub fn texts_are_judged()
    ensures names { (first : ℕ) (rest : Text) → text_laws.TextsAreNames first rest }
    ensures taken { (name : Text) (verb : Verb) → text_laws.TextsAreTaken name verb }
    ensures of_one { (word : Text) (verb : Verb) (posture : Posture)
        → text_laws.WordsAreOfOne word verb posture }
{}

/// The first of the same names has the number, and of a machine's own poses the first counts; a name that nothing has
/// calls nothing: of any names.
pub fn first_names_count()
    ensures numbers { (names : List Text) (name : Text) (number : ℕ)
        → text_laws.FirstsHaveNumbers names name number }
    ensures poses { (n : Named) (machine pose : ℕ) (name : Text)
        → text_laws.FirstOwnPosesCount n machine pose name }
    ensures unknown { (n : Named) (machine : ℕ) (verb : Verb) (name : Text)
        → text_laws.UnknownNamesCallNothing n machine verb name }
{}

/// Which records are calls, and which are starts: of any record, whatever its length and its fields. And what is told
/// of a record that is no call.
pub fn any_records_are_read()
    ensures calls { (n : Named) (row rest : Row) (who word name : Text) (r : Request)
        → record_laws.RecordsAreCalls n row rest who word name r }
    ensures starts { (count : ℕ) (rest : Row) (word digits field : Text) (s : State)
        → record_laws.RecordsAreStarts count rest word digits field s }
    ensures reasons { (n : Named) (row rest : Row) (who word name : Text) (machine : ℕ)
        (verb : Verb) → record_laws.ReasonsAreOfFields n row rest who word name machine verb }
{}

/// The record of an event has its caller and its call; so the script of a legal history, of at most 65,536 events that
/// machines may ask, is answered as the history says. And the start that a script has is a start by the plan.
pub fn histories_are_answered()
    ensures read { history_laws.EventsAreRead }
    ensures answered { history_laws.HistoriesAreAnswered }
    ensures starts { history_laws.StartsAreOfPlans }
{}

/// Examples: the whole text of each answer.
pub fn answers_are_told()
    ensures { examples.AnswersAreTold }
{}

/// Examples: the starts that digits and a stamp are.
pub fn starts_are_read()
    ensures { examples.StartsAreRead }
{}

/// Examples: which texts are names.
pub fn names_are_judged()
    ensures { examples.NamesAreJudged }
{}

/// Examples: numbers of names, the bytes that names may have, and that no other words are taken.
pub fn names_are_met()
    ensures found { words.NamesAreFound }
    ensures bytes { words.BytesOfNames }
    ensures free { words.OtherWordsAreFree }
{}

/// Examples: the call in a record, and records without one.
#[tactic(auto, using(crate::proofs::RequestRows::read_rows, crate::proofs::RequestRows::no_request_rows))]
pub fn requests_are_met()
    ensures read { words.RequestsAreRead }
    ensures none { words.NoRequests }
    ensures own { words.OwnPoses }
{}

/// Examples: the whole text of each call, and what answers name.
pub fn texts_are_met()
    ensures calls { words.CallsAreTold }
    ensures answers { words.AnswersName }
{}

/// Examples: the start in record 0, and why a record has no call.
#[tactic(auto, using(crate::proofs::ScriptRows::start_rows, crate::proofs::ScriptRows::reason_rows))]
pub fn records_are_met()
    ensures starts { scripts.StartRecords }
    ensures reasons { scripts.ReasonsAreTold }
{}

/// Examples: the whole answers to scripts.
#[tactic(auto, using(crate::proofs::ScriptRows::script_rows, crate::proofs::ScriptRows::cut_rows))]
pub fn scripts_are_met()
    ensures answered { scripts.ScriptsAreAnswered }
    ensures cut { scripts.ScriptsAreCut }
{}

/// A mark of byte order before a script is no part of it.
#[tactic(auto, using(crate::proofs::ScriptRows::mark_rows))]
pub fn marks_are_left_out()
    ensures { scripts.MarksAreLeftOut }
{}

/// Examples: the scripts of histories, and how they are answered.
#[tactic(auto, using(crate::proofs::HistoryRows::history_rows))]
pub fn scripts_of_histories_are_met()
    ensures { histories.ScriptsOfHistories }
{}
