//! The laws of points: `specs/Laws.antt` says them. Each is the contract of a function that does nothing.
ghost use Rattle.lua_points.specs.Clauses.{ClauseOfStart, ClauseOfAnswer, ClausesOfGo, GoCanBe};
ghost use Rattle.lua_points.specs.Families.{OneMore, OneGoes, OneIsAnswered, DataIsPut, OrderIsFree};
ghost use Rattle.lua_points.specs.Laws.{ThereIsAHome, StartIsAt, CallIsMet, QuestionIsAsked, EndIsMet, AnswerIsAt, SpentAnswerIsMet, PointIsCut, PointHasImage, PointLooksAtSet, PointLooksAtOwn, PointLooksAtOwned, OthersStay, UnownedStays, ReachStays, StartOwnsNew, AnswerOwnsNothing, NeighbourWaits, NeighboursStayApart, SetStaysThere, AnswersAreThere, AnswersStayApart, LoadIsAnswer, AnswersWait, TallyIsCarried, NothingTold, OtherAllowancesStay};

/// A fresh environment is there in a store that had nothing.
pub fn there_is_a_home()
    ensures { ThereIsAHome }
{}

/// A machine with a fresh environment is at the start of each run of its work, in a set that has nothing but what was made.
pub fn start_is_at()
    ensures { StartIsAt }
{}

/// A call that comes to an event does so in each run that stands where the machine stands. It keeps to the run's set, and makes no table
/// read-only.
pub fn call_is_met()
    ensures { CallIsMet }
{}

/// At a question the meaning asks it.
pub fn question_is_asked()
    ensures { QuestionIsAsked }
{}

/// Where nothing is left to do the meaning has ended, with an outcome that stands for the machine's.
pub fn end_is_met()
    ensures { EndIsMet }
{}

/// An answer is one reply more. Tables of a data module join the set.
pub fn answer_is_at()
    ensures { AnswerIsAt }
{}

/// An answer with which an allowance is spent ends the run, and all calls are given back.
pub fn spent_answer_is_met()
    ensures { SpentAnswerIsMet }
{}

/// A point may be seen within each closed set that has the machine's roots.
pub fn point_is_cut()
    ensures { PointIsCut }
{}

/// There is such a set within each set where a point is seen.
pub fn point_has_image()
    ensures { PointHasImage }
{}

/// A point looks at its set alone.
pub fn point_looks_at_set()
    ensures { PointLooksAtSet }
{}

/// It looks at an own set with the machine's roots and at read-only tables alone.
pub fn point_looks_at_own()
    ensures { PointLooksAtOwn }
{}

/// It looks at what the machine owns and at read-only tables alone.
pub fn point_looks_at_owned()
    ensures { PointLooksAtOwned }
{}

/// A call keeps to each own set with the machine's roots.
pub fn others_stay()
    ensures { OthersStay }
{}

/// So what the machine doesn't own is as it was.
pub fn unowned_stays()
    ensures { UnownedStays }
{}

/// What a machine owns after a call it owned before, or it was made in the call.
pub fn reach_stays()
    ensures { ReachStays }
{}

/// What a fresh machine owns was made with it.
pub fn start_owns_new()
    ensures { StartOwnsNew }
{}

/// An answer adds nothing to what a machine owns.
pub fn answer_owns_nothing()
    ensures { AnswerOwnsNothing }
{}

/// A machine stays at its point while another one goes on that meets it in read-only tables alone.
pub fn neighbour_waits()
    ensures { NeighbourWaits }
{}

/// Afterwards the two meet in read-only tables alone.
pub fn neighbours_stay_apart()
    ensures { NeighboursStayApart }
{}

/// The set of a machine has objects of the store alone, after a call too.
pub fn set_stays_there()
    ensures { SetStaysThere }
{}

/// And with an answer.
pub fn answers_are_there()
    ensures { AnswersAreThere }
{}

/// An answer doesn't bring two machines together.
pub fn answers_stay_apart()
    ensures { AnswersStayApart }
{}

/// Read-only tables that were made while the machine waited are an answer to it.
pub fn load_is_answer()
    ensures { LoadIsAnswer }
{}

/// An answer stays one, whoever goes on.
pub fn answers_wait()
    ensures { AnswersWait }
{}

/// What was told of a run before is carried along.
pub fn tally_is_carried()
    ensures { TallyIsCarried }
{}

/// Where nothing new is told, what was told stays.
pub fn nothing_told()
    ensures { NothingTold }
{}

/// A call takes steps and calls, and leaves all other allowances as they are.
pub fn other_allowances_stay()
    ensures { OtherAllowancesStay }
{}

/// The clause of `start`, from a fresh environment.
pub fn clause_of_start()
    ensures { ClauseOfStart }
{}

/// The clause of `answer`.
pub fn clause_of_answer()
    ensures { ClauseOfAnswer }
{}

/// All clauses of `go`, from what the loop of a machine shows.
pub fn clauses_of_go()
    ensures { ClausesOfGo }
{}

/// There is an event for which they hold.
pub fn go_can_be()
    ensures { GoCanBe }
{}

/// Machines that are apart stay so when one more is to be started.
pub fn one_more()
    ensures { OneMore }
{}

/// They stay so when one of them goes on, or is started.
pub fn one_goes()
    ensures { OneGoes }
{}

/// They stay so when one of them is answered.
pub fn one_is_answered()
    ensures { OneIsAnswered }
{}

/// They stay so when tables of a data module are put into the store.
pub fn data_is_put()
    ensures { DataIsPut }
{}

/// Any of them may be the one that goes on.
pub fn order_is_free()
    ensures { OrderIsFree }
{}
