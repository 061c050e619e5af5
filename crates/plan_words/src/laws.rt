//! Laws of a plan on several words, each the contract of a function that does nothing.
ghost use Rattle.std.specs.Prelude.{ℕ, ◌+◌, ◌<◌};
ghost use Rattle.plan_types.specs.Table.{PlanTable, zone_count};
ghost use Rattle.plan_types.specs.Plan.{IsPlan};
ghost use Rattle.plan_words.specs.Group.{Group, IsGroup, IsTableOf};
ghost use Rattle.plan_words.specs.Words.{AnsweredAlike};
ghost use Rattle.plan_words.specs.Run.{Word, IsLaidOut, WordsAreOnePlan, StartsAreWhole, LargeIsPlain};
ghost use Rattle.plan_words.specs.Motors.{WordsKeepLaws, PermittedByWords, PermissionsLastByWords};
ghost use Rattle.plan_words.specs.Motors.{HazardsNeverRunByWords, OneWordKeepsApart, PartsAreMotors};
ghost use Rattle.plan_words.specs.Groups.{IsLargePlan, group_of, word_of, Fits};
ghost use Rattle.plan_words.specs.Table.{StepsTellOneHistory};
ghost use Rattle.plan_words.specs.Least.{GroupsAreLeast, GroupsAreRight, TwelvePairs};
ghost use Rattle.plan_words.specs.FirstFit.{GroupsGoFirst, NoTwoFit, PlansStay, WordsAreRight};
ghost use Rattle.plan_words.specs.Stops.{StoppedWordsBar};
ghost use Rattle.plan_words.specs.Route.{CallsAreRouted};
ghost use Rattle.plan_words.specs.Engine.{CallsAreAllowed};
ghost use Rattle.plan_words.specs.Joined.{StatesAreWhole, HazardsAreDecided};
ghost use Rattle.plan_words.specs.Drives.{CallsTellAlike, OthersAreToldNothing, BackedByWords};
ghost use Rattle.plan_words.specs.Cut.{Cut, IsCut};
ghost use Rattle.plan_words.specs.CutRun.{WordsArePlan, PlatesAreLentInTurn, GivesAreThePlans, PlatesOfWordsAreCounted};
ghost use Rattle.plan_words.specs.CutRun.{TurnsAreTheKeepers, TurnsAreDone, StartsStand};
ghost use Rattle.plan_words.specs.CutTable.{CutsAreCut};
ghost use Rattle.plan_words.specs.CutMotors.{PermittedByCut};
ghost use Rattle.plan_words.specs.CutRows.{PlateGoesThrough, OnlyRefusalsDiffer, OutOfTurn, LentToBoth, OpenToBoth};
ghost use Rattle.plan_words.specs.CutRows.{WordsDontTell};
ghost use Rattle.plan_words.specs.CutLeast.{GroupsWhenCut, FortyZones};
ghost use Rattle.plan_words.specs.Rows.{WrongSplits, NoOneOrder, LooksAreNoMoment};

/// A call of the plan, as if it were on one word without limits, is answered as the call on its group's word.
pub fn calls_are_answered_alike()
    ensures { (t : PlanTable) (g : Group) (u : PlanTable) → IsGroup t g → IsTableOf t g u → IsPlan u
        → AnsweredAlike t g u }
{}

/// Where each word has a legal history by its own plan, all their events, in any order that keeps each word's, are one
/// legal history of the plan, as if it were on one word without limits; but each word has its own stamp and stop.
pub fn words_are_one_plan()
    ensures { (t : PlanTable) (count : ℕ) (words : ℕ → Word) → IsLaidOut t count words
        → WordsAreOnePlan t count words }
{}

/// Each law of a zone, a place, a guest or a host holds of each word's history, as on one word.
pub fn words_keep_laws()
    ensures { (t : PlanTable) (count : ℕ) (words : ℕ → Word) → IsLaidOut t count words
        → WordsKeepLaws t count words }
{}

/// A motor is permitted by the plan exactly if each word permits its part.
pub fn permitted_by_words()
    ensures { (t : PlanTable) (count : ℕ) (words : ℕ → Word) → IsLaidOut t count words
        → PermittedByWords t count words }
{}

/// A machine may read its permission word by word, at different moments: while no call of its own has lost it on a
/// word, the whole plant permits the motor, whatever others have done on any word; if its parts fit their words.
pub fn permissions_last_between_words()
    ensures { (t : PlanTable) (count : ℕ) (words : ℕ → Word) → IsLaidOut t count words
        → PermissionsLastByWords t count words }
{}

/// Two motors whose parts fit their words, and which one zone or one place keeps apart, never both run by such
/// permissions, whatever is done on other words.
pub fn hazards_never_run_between_words()
    ensures { (t : PlanTable) (count : ℕ) (words : ℕ → Word) → IsLaidOut t count words
        → HazardsNeverRunByWords t count words }
{}

/// Splits that are no groups, in literal plants, and what such words would do though the plan refuses it.
pub fn wrong_splits_are_no_groups()
    ensures { WrongSplits }
{}

/// What several words don't promise: one order of all calls for all callers, and a look at all words at one moment.
pub fn words_have_no_one_order()
    ensures order { NoOneOrder }
    ensures looks { LooksAreNoMoment }
{}

/// The computed groups are such words, where each fits: what a pose or a place joins shares one.
pub fn groups_are_words()
    ensures { (t : PlanTable) → IsLargePlan t → ((n : ℕ) → n < zone_count t + 1
        → Fits t (group_of t n))
        → IsLaidOut t (zone_count t + 1) (word_of t) }
{}

/// A group is on the first word that has room for it, and so no two words of a plant would fit one.
pub fn groups_share_words()
    ensures first { GroupsGoFirst }
    ensures apart { NoTwoFit }
    ensures literal { WordsAreRight }
{}

/// A plant that is a plan is on one word, whose tables are the plan's own, by the plan's numbers.
pub fn plans_are_on_one_word()
    ensures { PlansStay }
{}

/// Where all words are in one table, each step on one word adds its event to one history of all words, whatever the
/// other words are: then all calls have one order.
pub fn steps_tell_one_history()
    ensures { (count : ℕ) (words : ℕ → Word) → StepsTellOneHistory count words }
{}

/// No zones are of one group without need: two zones of a group are joined by poses, places and spaces, so each split
/// in two that leaves these whole has both on one side. (Groups that nothing joins share a word where they fit it.)
pub fn groups_are_least()
    ensures least { GroupsAreLeast }
    ensures literal { GroupsAreRight }
{}

/// On a word that is stopped nothing that a stop bars is done, while other words may go on.
pub fn stopped_words_bar()
    ensures { (t : PlanTable) (count : ℕ) (words : ℕ → Word) → IsLaidOut t count words
        → StoppedWordsBar t count words }
{}

/// Each start of the plan, with any places full, is a start of its words.
pub fn starts_are_whole()
    ensures { (t : PlanTable) (count : ℕ) (words : ℕ → Word) → IsLaidOut t count words
        → StartsAreWhole t count words }
{}

/// Where a state has ten zones, as each of today has, the large plan's calls leave what a plan's leave.
pub fn large_is_plain()
    ensures { LargeIsPlain }
{}

/// The same of two motors whose parts on one word are kept apart there, also by the poses of a machine.
pub fn one_word_keeps_motors_apart()
    ensures { (t : PlanTable) (count : ℕ) (words : ℕ → Word) → IsLaidOut t count words
        → OneWordKeepsApart t count words }
{}

/// Each call of the plan that names a row goes to one group, that of its zone, pose or place, and is this call there,
/// by the group's numbers.
pub fn calls_are_routed()
    ensures { CallsAreRouted }
{}

/// As a rule of an atomic table without slots: whatever the table is, a call's step on one word is allowed, and its
/// caller has then seen one history of all words, with the call.
pub fn calls_are_allowed_steps()
    ensures { (count : ℕ) (words : ℕ → Word) → CallsAreAllowed (Unit {0}) count words }
{}

/// Any sound states of the words are those of one state of the large plan. So where no word keeps two motors apart by
/// itself, a state of the large plan permits both.
pub fn hazards_are_decided_by_words()
    ensures whole { (t : PlanTable) (count : ℕ) (words : ℕ → Word) → IsLaidOut t count words
        → StatesAreWhole t count words }
    ensures decided { (t : PlanTable) (count : ℕ) (words : ℕ → Word) → IsLaidOut t count words
        → HazardsAreDecided t count words }
{}

/// A motor of the large plan is a motor of each word's plan, by its part there.
pub fn parts_are_motors()
    ensures { (t : PlanTable) (count : ℕ) (words : ℕ → Word) → IsLaidOut t count words
        → PartsAreMotors t count words }
{}

/// Literal tables that don't fit one word, and are laid out on several.
pub fn twelve_pairs_are_laid_out()
    ensures { TwelvePairs }
{}

/// What a done call tells its machine of its word's zones and places it tells by the large plan, and by the word's; and
/// it tells nothing of other words.
pub fn calls_tell_by_words()
    ensures own { (t : PlanTable) (count : ℕ) (words : ℕ → Word) → IsLaidOut t count words
        → CallsTellAlike t count words }
    ensures others { (t : PlanTable) (count : ℕ) (words : ℕ → Word) → IsLaidOut t count words
        → OthersAreToldNothing t count words }
    ensures backs { (t : PlanTable) (count : ℕ) (words : ℕ → Word) → IsLaidOut t count words
        → BackedByWords t count words }
{}

/// Where keepers lend and open in turn, an exit of a place is full only while all its entries are, and by the plan the
/// plate is there.
pub fn plates_are_lent_in_turn()
    ensures { (c : Cut) (count : ℕ) (words : ℕ → Word) → IsCut c → IsLargePlan c.plan
        → IsLaidOut c.cut count words
        → PlatesAreLentInTurn c count words }
{}

/// So nobody gives a plate to a place that the last one hasn't left, and no plate is given that isn't there.
pub fn gives_are_the_plans()
    ensures { (c : Cut) (count : ℕ) (words : ℕ → Word) → IsCut c → IsLargePlan c.plan
        → IsLaidOut c.cut count words
        → GivesAreThePlans c count words }
{}

/// Then the plates of the plan are counted, and are those of the words, but for places without a plate that are shut.
pub fn plates_of_words_are_counted()
    ensures { (c : Cut) (count : ℕ) (words : ℕ → Word) → IsCut c → IsLargePlan c.plan
        → IsLaidOut c.cut count words
        → PlatesOfWordsAreCounted c count words }
{}

/// And the events of all words, without advances of exits and entries, are one legal history of the plan, but for two
/// refusals: of a keeper's plate that isn't lent yet, and at an entry that isn't open yet.
pub fn words_with_cut_places_are_one_plan()
    ensures { (c : Cut) (count : ℕ) (words : ℕ → Word) → IsCut c → IsLargePlan c.plan
        → IsLaidOut c.cut count words
        → WordsArePlan c count words }
{}

/// What decides a place's turn changes by calls of its keeper alone, on whatever word.
pub fn turns_are_the_keepers()
    ensures { (c : Cut) (count : ℕ) (words : ℕ → Word) → IsCut c → IsLargePlan c.plan
        → IsLaidOut c.cut count words
        → TurnsAreTheKeepers c count words }
{}

/// A keeper that lends or opens in turn is refused only for a stop or the last stamp.
pub fn turns_are_done()
    ensures { (c : Cut) → IsCut c → TurnsAreDone c }
{}

/// Each start of the plan is one of the cut plan, with all exits empty, and no entry open but the places themselves.
pub fn starts_stand()
    ensures { (c : Cut) → IsCut c → StartsStand c }
{}

/// Whatever places of a plan are cut, the cut plan's tables are made so, and are a plan but for limits: so its groups
/// are words, where each fits.
pub fn cuts_are_cut()
    ensures { CutsAreCut }
{}

/// A literal round of a plate through a place that is cut; what is refused meanwhile that the plan does; and what is
/// done out of turn that the plan refuses.
pub fn cut_places_are_met()
    ensures goes_through { PlateGoesThrough }
    ensures refused { OnlyRefusalsDiffer }
    ensures out_of_turn { OutOfTurn }
    ensures to_both { LentToBoth }
    ensures from_both { OpenToBoth }
{}

/// All words' zones and places don't tell whether a cut place has its plate: a keeper has to know its own calls.
pub fn words_dont_tell_turns()
    ensures { WordsDontTell }
{}

/// With all places cut, zones are of one group by poses alone, in literal plants.
pub fn groups_when_cut()
    ensures { GroupsWhenCut }
{}

/// Forty zones are one group; with all places cut they are laid out on 41 words, the last of which has none.
pub fn forty_zones_are_laid_out()
    ensures { FortyZones }
{}

/// A motor reads that a cut place is full at an exit, and that it is empty at an entry: what the cut plan permits so,
/// the plan does.
pub fn permitted_by_cut()
    ensures { (c : Cut) → IsCut c → PermittedByCut c }
{}
