//! Tries of the machine's definitions: what each gives at small flows, files and steps, as the contracts of functions
//! that do nothing.
ghost use Rattle.std.specs.Prelude.{◌-◌, [], ◌∷◌, true, false, Some, None, codes};
ghost use Rattle.machine_model.specs.declared.kind.Conflict.TheVariants.{Replace, Ignore, Fail};
ghost use Rattle.machine_model.specs.declared.kind.Kind.TheVariants.{PutFile};
ghost use Rattle.machine_model.specs.declared.kind.TakeRule.TheVariants.{Source, One, Bin};
ghost use Rattle.machine_model.specs.Sound.{IsSound};
ghost use Rattle.machine_examples.specs.Small.{hi, nothing, with_a, a_file, get_to_put, wide};
ghost use Rattle.machine_examples.specs.Acks.{AcknowledgedIs, AreInOrder, AreNotInOrder, falling, gapped, three as acked};
ghost use Rattle.machine_examples.specs.Agings.{AgeGives, AgingIs, IsChildBy, NumbersGoOn, around, behind};
ghost use Rattle.machine_examples.specs.Batches.{LastOf, OddGoes, six, nth, StepGives, queued, two_gone, two_batches, lower_back, BatchesAre, batch, FullWith, EligibleOf, ExpiredOf, GoesOf, ComesOf, FullOf, flying, still, waiting_penalised};
ghost use Rattle.machine_examples.specs.Cuts.{SegmentsAre, OneSegmentIsAClone, LinesAre, NothingHasNoLine, NothingHasNoSegment, TooManyAreGivenUp, Leaves, TwoAreJoined, NoFragmentIsGivenUp, WholeIsJoined, TurnedIsGivenUp, MissingIsGivenUp, DoubledIsGivenUp};
ghost use Rattle.machine_examples.specs.Elsewhere.{WantsIs, HeldBackIs, SecondExpires, NotOfTheFirst, SecondSwapsOut, SecondSwapsIn, FirstsBatchIsNotSeconds, TakesOf, ExpiryIs, SwapOutIs, SwapInIs, CheckpointIs, ReclaimIs, chained, fresh, both_wait, both_swapped, three as first_three, three_more, in_batch, last_log};
ghost use Rattle.machine_model.specs.Files.{view_of};
ghost use Rattle.machine_model.specs.declared.journal.Step.TheVariants.{SwapOut, SwapIn};
ghost use Rattle.machine_examples.specs.Changes.{ChangeGives};
ghost use Rattle.machine_examples.specs.Clones.{EachGoesItsWay, ReceivedSays, GeneratedSays, TwoFanOut, CopiesGoByOriginals, BesideADrop, NoValueIsEmpty, FourClonesFollow, ClonesArePenalisedToo, duplicating, EachConnectionGetsOne, MadeIsNamed, NamedKeepsItsName, TakenStaysNameless};
ghost use Rattle.machine_examples.specs.Copies.{TwoAreCopied, NoneIsCopied, FirstAndLastAreTrue, TwoAreRouted, OneIsRouted, NoneIsUnmatched};
ghost use Rattle.machine_examples.specs.Ends.{NarrowIs, FilteredIsLeft, FoundIsWanted, SwappingIsQuiet, SwappingBlocks, ButForSwapsIsQuiet, ButForSwapsBlocks, QuietIs, left_a, taken_a, penalised, BlockedIs, RingIsQuiet, ringed};
ghost use Rattle.machine_examples.specs.Expiries.{ExpiredIs, OneExpires, NoneExpiresAtOnce, TwoExpire, BatchGoes, BatchMustWait, BatchComesBack, GoesAndComesBack, SwapsDueAre, late, late_in_batch};
ghost use Rattle.machine_examples.specs.Families.{Names, AnyNames, IsAncestorOf, IsNoAncestorOf, IsDescendantOf, IsNoDescendantOf, Tells, TellsNot, cloned, joined, stranger};
ghost use Rattle.machine_examples.specs.Flows.{GeneratingIsSound, RingIsSound, IsUnsound, MarkedIsSound, ContainedIsNot, ListIs, AloneIsNotJoined, UnmarkedIsUnsound, ExactIsMarked, unconnected, terminated, into_source, doubled, tight, turned, blank, nowhere, crowded, strange, fanned};
ghost use Rattle.machine_examples.specs.Orders.{PrioritiesTell, EligibleAre, FullIs, first, second, third, penalised as under_penalty, swapped, since};
ghost use Rattle.machine_examples.specs.Sizes.{FullIsReceived, TooLongIsNotReceived, TooLongIsLeft};
ghost use Rattle.machine_examples.specs.Texts.{DigitIsExtracted, XIsSecond, NoDigitIsUnmatched, LongNameIsUnmatched, NoTextIsUnmatched, ValueIs, NoTextIsRoutedToUnmatched, SecondFinds, LiteralReplaces, NoTextFails, TemplateReplaces};
ghost use Rattle.machine_examples.specs.Told.{SplitTells, JoinTells, WritingTells, SettingTells, BothTellOne, RemovedTellsNone, UnchangedTellsNone, RoutedTells, AllTellInTurn, KindsInTurn, ForkedEnteredAsParent, JoinedEnteredAsEarliest, through, split, merge};
ghost use Rattle.prioritizer.specs.declared.prioritizer.Prioritizer.TheVariants.{FirstInFirstOut, NewestFlowFileFirst, OldestFlowFileFirst};
ghost use Rattle.machine_examples.specs.Picks.{WholeGoesBesideAPart, EarlierOfTwoWholes, FirstOfDoubled, TwiceIsNoWhole, CountsTellWholes, NoCountIsNone, NoIdentifierIsNone, PicksOf, FullPicks, no_bytes, part, FragmentIs, TwoAreNoWhole, ThreeAreAWhole, LoneGoesBesideTwo, EarlierWholeGoes, EarlierLoneGoes, one, two, three};
ghost use Rattle.machine_examples.specs.Outboxes.{PutReads};
ghost use Rattle.machine_examples.specs.Puts.{PutsNamed, NamelessFails, BadNameFails, ReplacePutsOver, IgnoreLeaves, FailLeaves, sent, passed, failed};
ghost use Rattle.machine_examples.specs.Returns.{ReturnsUntil, ReturnsAsMade, latest};
ghost use Rattle.machine_examples.specs.Refusals.{SwappedDoesNotExpire, SwappedDoesNotGo, ExpiredIsNotTaken, NoneIsTakenTwice, PenalisedIsNotTaken, SwappedIsNotTaken, StrangeIsNotTaken, TwoAreNotPut, NoneIsNotPut, NoSuchProcessor, NoSuchConnection, FreshDoesNotExpire, OneOfTwoIsFresh, NothingDoesNotExpire, NoneExpiresTwice, OtherBatchDoesNotGo, TwoDoNotGo, FewDoNotGo, HigherBatchDoesNotCome, StrangeBatchDoesNotCome, BatchWaitsWhileTwoAreActive, GoneIsNotReceived, MissingIsNotReceived, NamelessIsNotReceived, SourceTakesNone, RefusesAnswer, RefusesIndex, BytesAreNotGiven, MomentIsOfTheStep, NamelessIsNotThere, NoFragmentsAreTaken, FragmentsAreTaken, BinAdmits, TakesToPut, TakesToMerge, penalised as penalty};
ghost use Rattle.machine_examples.specs.Run.{IsReceived, IsSent, IsDelivered};

/// What is received and sent, from the inbox to the outbox.
pub fn files_go_through()
    ensures received { IsReceived hi }
    ensures sent { IsSent hi }
    ensures replayed { IsDelivered hi }
    ensures replayed_empty { IsDelivered [] }
    ensures long_full { FullIsReceived }
    ensures long_too_long { TooLongIsNotReceived }
    ensures long_left { TooLongIsLeft }
{}

/// What a session may not take, and what it may not be given.
pub fn sessions_are_refused()
    ensures expired { ExpiredIsNotTaken }
    ensures twice { NoneIsTakenTwice }
    ensures penalised { PenalisedIsNotTaken }
    ensures swapped { SwappedIsNotTaken }
    ensures strange { StrangeIsNotTaken }
    ensures two { TwoAreNotPut }
    ensures none { NoneIsNotPut }
    ensures no_processor { NoSuchProcessor }
    ensures given_gone { GoneIsNotReceived }
    ensures given_missing { MissingIsNotReceived }
    ensures given_nameless { NamelessIsNotReceived }
    ensures given_taking { SourceTakesNone }
    ensures given_there { RefusesAnswer nothing true }
    ensures given_not_there { RefusesAnswer with_a false }
    ensures given_same_index { RefusesIndex 1 1 }
    ensures given_skipped_index { RefusesIndex 1 3 }
    ensures given_past_count { RefusesIndex 2 3 }
    ensures given_bytes { BytesAreNotGiven }
    ensures given_moment { MomentIsOfTheStep }
    ensures given_nameless_there { NamelessIsNotThere }
{}

/// What a session may take: a fresh file, one whose penalty is over, and any of those that wait. A bin takes
/// neither more than its greatest number, nor files out of turn, nor one twice, nor none; it may leave some out.
pub fn takes_are_allowed()
    ensures fresh { TakesToPut (a_file 1 1 ∷ []) (1 ∷ []) 1499 (a_file 1 1 ∷ []) }
    ensures free { TakesToPut (penalty (a_file 1 1) 1200 ∷ []) (1 ∷ []) 1200 (penalty (a_file 1 1) 1200 ∷ []) }
    ensures second { TakesToPut (a_file 1 1 ∷ a_file 2 2 ∷ []) (2 ∷ []) 1000 (a_file 2 2 ∷ []) }
    ensures bin_three { TakesToMerge (1 ∷ 2 ∷ 3 ∷ []) None }
    ensures bin_turned { TakesToMerge (2 ∷ 1 ∷ []) None }
    ensures bin_twice { TakesToMerge (1 ∷ 1 ∷ []) None }
    ensures bin_none { TakesToMerge [] None }
    ensures bin_first { TakesToMerge (1 ∷ 2 ∷ []) (Some (a_file 1 1 ∷ a_file 2 2 ∷ [])) }
    ensures bin_in_turn { BinAdmits (a_file 1 1 ∷ a_file 2 2 ∷ a_file 3 3 ∷ []) true }
    ensures bin_last_turned { BinAdmits (a_file 1 1 ∷ a_file 3 3 ∷ a_file 2 2 ∷ []) false }
    ensures bin_skipping { TakesToMerge (1 ∷ 3 ∷ []) (Some (a_file 1 1 ∷ a_file 3 3 ∷ [])) }
    ensures fragments_none { NoFragmentsAreTaken }
    ensures fragments_most { FragmentsAreTaken 1000 true }
    ensures fragments_more { FragmentsAreTaken 1001 false }
{}

/// What a queue's own steps may not do.
pub fn queue_steps_are_refused()
    ensures fresh { FreshDoesNotExpire }
    ensures one_fresh { OneOfTwoIsFresh }
    ensures nothing { NothingDoesNotExpire }
    ensures twice { NoneExpiresTwice }
    ensures no_connection { NoSuchConnection }
    ensures other_batch { OtherBatchDoesNotGo }
    ensures two { TwoDoNotGo }
    ensures few { FewDoNotGo }
    ensures higher { HigherBatchDoesNotCome }
    ensures swapped_expires { SwappedDoesNotExpire }
    ensures swapped_goes { SwappedDoesNotGo }
    ensures strange { StrangeBatchDoesNotCome }
    ensures waits { BatchWaitsWhileTwoAreActive }
{}

/// Files expire, and events tell of them by ascending numbers. A batch of one goes where three files are active at
/// a threshold of two, and comes back once one is.
pub fn queue_steps_are_told()
    ensures at_limit { ExpiredIs 1 1001 true }
    ensures at_once { ExpiredIs 1 1000 false }
    ensures before_entry { ExpiredIs 1 500 false }
    ensures without_limit { ExpiredIs 0 1000000 false }
    ensures one { OneExpires }
    ensures too_early { NoneExpiresAtOnce }
    ensures two { TwoExpire }
    ensures batch_goes { BatchGoes }
    ensures batch_waits { BatchMustWait }
    ensures batch_comes { BatchComesBack }
    ensures batch_all { GoesAndComesBack }
    ensures batch_due { SwapsDueAre (a_file 1 1 ∷ a_file 2 2 ∷ late ∷ []) (Some (3 ∷ [])) None }
    ensures batch_swapped { SwapsDueAre (a_file 1 1 ∷ a_file 2 2 ∷ late_in_batch ∷ []) None None }
    ensures batch_expired { SwapsDueAre (a_file 2 2 ∷ late_in_batch ∷ []) None (Some 1) }
    ensures batch_none { SwapsDueAre (a_file 2 2 ∷ []) None None }
{}

/// A DuplicateFlowFile's file and its four clones go to one connection, in turn; a penalised file's clone waits as
/// long as the file; a made file goes to the first of three connections, and a clone of it to each of the others. A
/// made file without `filename` is named by its uuid; any other keeps its attributes.
pub fn clones_are_told()
    ensures follow { FourClonesFollow }
    ensures penalised_too { ClonesArePenalisedToo }
    ensures each_connection { EachConnectionGetsOne }
    ensures name_made { MadeIsNamed }
    ensures name_named { NamedKeepsItsName }
    ensures name_taken { TakenStaysNameless }
    ensures two_fan_out { TwoFanOut }
    ensures copies { CopiesGoByOriginals }
    ensures beside_a_drop { BesideADrop }
    ensures no_value { NoValueIsEmpty }
    ensures apart { EachGoesItsWay }
    ensures received { ReceivedSays }
    ensures generated { GeneratedSays }
{}

/// A DuplicateFlowFile copies a file as often as it says, or not at all where a copy would pass a limit. A file goes to
/// the first of the relationships that are true of it, a clone to each other one, and to unmatched where none is.
pub fn copies_are_told()
    ensures copied { TwoAreCopied }
    ensures not_copied { NoneIsCopied }
    ensures true_places { FirstAndLastAreTrue }
    ensures routed_two { TwoAreRouted }
    ensures routed_one { OneIsRouted }
    ensures routed_none { NoneIsUnmatched }
{}

/// What a PutFile makes of a file, by its strategy, by whether the outbox has the name, and by whether the name can
/// name a file; and what becomes of the outbox. A file that goes back stands where it stood.
pub fn puts_are_told()
    ensures replace_new { PutsNamed Replace false sent }
    ensures ignore_new { PutsNamed Ignore false sent }
    ensures fail_new { PutsNamed Fail false sent }
    ensures replace_there { PutsNamed Replace true sent }
    ensures ignore_there { PutsNamed Ignore true passed }
    ensures fail_there { PutsNamed Fail true failed }
    ensures name_none { NamelessFails }
    ensures name_slash { BadNameFails (codes "a/b") }
    ensures name_nothing { BadNameFails [] }
    ensures name_parent { BadNameFails (codes "..") }
    ensures over_replace { ReplacePutsOver }
    ensures over_ignore { IgnoreLeaves }
    ensures over_fail { FailLeaves }
    ensures read { PutReads }
    ensures back_free { ReturnsUntil 2000 false 0 }
    ensures back_penalised { ReturnsUntil 2000 true 32000 }
    ensures back_saturated { ReturnsUntil latest true latest }
    ensures back_as_made { ReturnsAsMade }
{}

/// A content in parts by bytes and by lines, of which one that is the whole is a clone, and of which nothing has any;
/// without its ends; and two contents as one. What isn't all fragments of a whole, in turn, isn't joined as one.
pub fn contents_are_cut()
    ensures segments { SegmentsAre }
    ensures whole { OneSegmentIsAClone 5 }
    ensures shorter { OneSegmentIsAClone 9 }
    ensures no_segment { NothingHasNoSegment }
    ensures too_many { TooManyAreGivenUp }
    ensures lines { LinesAre }
    ensures no_line { NothingHasNoLine }
    ensures both_ends { Leaves 1 1 (codes "abc") (codes "b") }
    ensures covered { Leaves 1 1 (codes "a") [] }
    ensures no_end { Leaves 0 0 (codes "ab") (codes "ab") }
    ensures joined { TwoAreJoined }
    ensures no_fragment { NoFragmentIsGivenUp }
    ensures in_turn { WholeIsJoined }
    ensures turned { TurnedIsGivenUp }
    ensures missing { MissingIsGivenUp }
    ensures doubled { DoubledIsGivenUp }
{}

/// The best file, or none. A bin has at least its least number of files unless the next would not fit, and at most
/// its greatest. All parts of a whole go, in their order, or none; a file that is no part goes alone; the earlier
/// goes.
pub fn picks_are_told()
    ensures one { PicksOf One (two ∷ one ∷ []) (Some (two ∷ [])) }
    ensures none { PicksOf One [] None }
    ensures source { PicksOf Source (one ∷ []) None }
    ensures bin_too_few { PicksOf (Bin 2 5) (one ∷ []) None }
    ensures bin_enough { PicksOf (Bin 2 5) (one ∷ two ∷ []) (Some (one ∷ two ∷ [])) }
    ensures bin_most { PicksOf (Bin 1 2) (one ∷ two ∷ three ∷ []) (Some (one ∷ two ∷ [])) }
    ensures bin_none { PicksOf (Bin 1 2) [] None }
    ensures bin_full { FullPicks 3 (two ∷ []) (λ full. Some (full ∷ [])) }
    ensures bin_room_for_nothing { FullPicks 2 (no_bytes ∷ []) (λ full. Some (full ∷ no_bytes ∷ [])) }
    ensures bin_gap { FullPicks 3 (two ∷ no_bytes ∷ []) (λ full. Some (full ∷ [])) }
    ensures bin_nothing_behind { FullPicks 2 [] (λ full. None) }
    ensures part_third { FragmentIs (codes "3") (codes "3") (part 3) }
    ensures part_zero { FragmentIs (codes "0") (codes "3") None }
    ensures part_past { FragmentIs (codes "4") (codes "3") None }
    ensures part_no_number { FragmentIs (codes "x") (codes "3") None }
    ensures part_too_many { FragmentIs (codes "1") (codes "1001") None }
    ensures whole_two { TwoAreNoWhole }
    ensures whole_three { ThreeAreAWhole }
    ensures whole_beside { LoneGoesBesideTwo }
    ensures whole_whole { EarlierWholeGoes }
    ensures whole_lone { EarlierLoneGoes }
    ensures whole_beside_part { WholeGoesBesideAPart }
    ensures whole_of_two { EarlierOfTwoWholes }
    ensures doubled { FirstOfDoubled }
    ensures twice { TwiceIsNoWhole }
    ensures other_count { CountsTellWholes }
    ensures no_count { NoCountIsNone }
    ensures no_identifier { NoIdentifierIsNone }
{}

/// A flow is quiet where no name is left and nothing is queued, expired or penalised. A ring is blocked where each
/// processor that wants to work has a full queue behind it. Where a batch has to be swapped, it is neither.
pub fn ends_are_told()
    ensures empty { QuietIs [] taken_a 1000 true }
    ensures left { QuietIs [] left_a 1000 false }
    ensures queued { QuietIs (a_file 1 1 ∷ []) taken_a 1000 false }
    ensures penalised { QuietIs (penalised ∷ []) taken_a 1200 false }
    ensures expired { QuietIs (a_file 1 1 ∷ []) taken_a 1500 false }
    ensures ring_blocked { BlockedIs (ringed (a_file 3 1 ∷ []) (a_file 1 2 ∷ []) (a_file 2 3 ∷ []) 3) (Some 1) }
    ensures ring_loud { RingIsQuiet (ringed (a_file 3 1 ∷ []) (a_file 1 2 ∷ []) (a_file 2 3 ∷ []) 3) false }
    ensures ring_penalised { BlockedIs
        (ringed (penalised ∷ a_file 3 4 ∷ []) (a_file 4 2 ∷ []) (a_file 2 3 ∷ []) 3) None }
    ensures ring_room { BlockedIs (ringed (a_file 3 1 ∷ []) [] (a_file 2 3 ∷ []) 3) None }
    ensures ring_generating { BlockedIs (ringed (a_file 3 1 ∷ []) (a_file 1 2 ∷ []) (a_file 2 3 ∷ []) 2) None }
    ensures ring_nothing_wanted { BlockedIs (ringed [] [] [] 3) None }
    ensures ring_quiet { RingIsQuiet (ringed [] [] [] 3) true }
    ensures ring_more_to_make { RingIsQuiet (ringed [] [] [] 2) false }
    ensures ring_beside_full { NarrowIs (ringed (a_file 3 1 ∷ []) (a_file 1 2 ∷ []) (a_file 2 3 ∷ []) 3) (Some 1) }
    ensures ring_all_full { NarrowIs (ringed (a_file 3 1 ∷ []) (a_file 1 2 ∷ []) (a_file 2 3 ∷ []) 2) (Some 0) }
    ensures filtered { FilteredIsLeft }
    ensures found { FoundIsWanted }
    ensures batch_stays { SwappingIsQuiet 4 (a_file 1 1 ∷ a_file 2 2 ∷ a_file 3 3 ∷ []) true }
    ensures batch_goes { SwappingIsQuiet 2 (a_file 1 1 ∷ a_file 2 2 ∷ a_file 3 3 ∷ []) false }
    ensures batch_comes { SwappingIsQuiet 2 (in_batch 1 (a_file 3 3) ∷ []) false }
    ensures but_for_its_going { ButForSwapsIsQuiet 2 (a_file 1 1 ∷ a_file 2 2 ∷ a_file 3 3 ∷ []) true }
    ensures but_for_its_coming { ButForSwapsIsQuiet 2 (in_batch 1 (a_file 3 3) ∷ []) true }
    ensures batches_in_ring { SwappingBlocks (ringed [] first_three three_more 3) None }
    ensures but_for_these { ButForSwapsBlocks (ringed [] first_three three_more 3) (Some 1) }
{}

/// The line is raised by whole files of events, past where it was and up to the last event; what is told up to it is
/// forgotten. An aging is due where a file of events more may go. Behind a line events are numbered on from the last
/// one, and a clone is a child by the event that tells of it, and by no other.
pub fn agings_are_told()
    ensures forgets { AgeGives (around 10_001) 10_000 (Some (behind 10_001)) }
    ensures at_the_last { AgeGives (around 10_000) 10_000 (Some (behind 10_000)) }
    ensures within_a_file { AgeGives (around 10_001) 10_001 None }
    ensures past_the_last { AgeGives (around 9_999) 10_000 None }
    ensures again { AgeGives (behind 10_001) 10_000 None }
    ensures below { AgeGives (behind 10_001) 0 None }
    ensures due_not_yet { AgingIs 5_000 0 14_999 None }
    ensures due { AgingIs 5_000 0 15_000 (Some 10_000) }
    ensures due_last_file { AgingIs 5_000 0 25_000 (Some 20_000) }
    ensures due_no_more { AgingIs 5_000 20_000 29_999 None }
    ensures due_few { AgingIs 30_000 0 25_000 None }
    ensures numbers { NumbersGoOn }
    ensures child { IsChildBy 3 10_005 true }
    ensures other_event { IsChildBy 3 10_004 false }
    ensures counted_from_one { IsChildBy 3 2 false }
{}

/// Which files are eligible, and in which order. A queue is full at a limit on its files or on its bytes, with
/// swapped files counted; a limit of 0 is none.
pub fn queues_are_seen()
    ensures default { EligibleAre [] (first ∷ second ∷ third ∷ []) (second ∷ third ∷ first ∷ []) }
    ensures oldest { EligibleAre (OldestFlowFileFirst ∷ []) (first ∷ second ∷ third ∷ [])
        (second ∷ third ∷ first ∷ []) }
    ensures newest { EligibleAre (NewestFlowFileFirst ∷ []) (first ∷ second ∷ third ∷ [])
        (first ∷ second ∷ third ∷ []) }
    ensures arrival { EligibleAre (FirstInFirstOut ∷ []) (third ∷ second ∷ first ∷ []) (first ∷ second ∷ third ∷ []) }
    ensures under_penalty { EligibleAre [] (under_penalty 4001 ∷ second ∷ []) (second ∷ []) }
    ensures penalty_over { EligibleAre [] (under_penalty 4000 ∷ second ∷ []) (second ∷ under_penalty 4000 ∷ []) }
    ensures swapped { EligibleAre [] (second ∷ swapped ∷ []) (second ∷ []) }
    ensures expired { EligibleAre [] (second ∷ since 500 ∷ []) (second ∷ []) }
    ensures almost { EligibleAre [] (second ∷ since 501 ∷ []) (since 501 ∷ second ∷ []) }
    ensures full_below { FullIs 3 0 (first ∷ swapped ∷ []) false }
    ensures full_at { FullIs 2 0 (first ∷ swapped ∷ []) true }
    ensures full_below_bytes { FullIs 0 5 (first ∷ swapped ∷ []) false }
    ensures full_at_bytes { FullIs 0 4 (first ∷ swapped ∷ []) true }
    ensures full_unlimited { FullIs 0 0 (first ∷ swapped ∷ []) false }
    ensures priorities { PrioritiesTell }
{}

/// A split tells one FORK of all parts, and each part has its bytes; a join tells its parents by ascending numbers,
/// and the child's data entered when the earliest of theirs did. What is told of a file goes by what a session did
/// to it.
pub fn events_are_told()
    ensures split { SplitTells }
    ensures joined { JoinTells }
    ensures change_written { WritingTells }
    ensures change_set { SettingTells }
    ensures change_both { BothTellOne }
    ensures change_removed { RemovedTellsNone }
    ensures change_unchanged { UnchangedTellsNone }
    ensures change_routed { RoutedTells }
    ensures change_in_turn { AllTellInTurn }
    ensures kinds_in_turn { KindsInTurn }
    ensures forked_entered { ForkedEnteredAsParent }
    ensures joined_entered { JoinedEnteredAsEarliest }
{}

/// What a change makes of a state: who goes, who is placed and where, with which bytes, and what is told and counted.
pub fn changes_are_told()
    ensures { ChangeGives }
{}

/// What is made of a content that is read as text: `(\d)(x)?` finds in `a7` a digit and no x, and nothing in `ab`; of a
/// value that ends in a character of two bytes, 1,024 bytes stay whole, and of 1,025 that character is left out; a
/// content that isn't UTF-8 matches nothing and is replaced by nothing.
pub fn texts_are_told()
    ensures extracted { DigitIsExtracted }
    ensures extracted_x { XIsSecond }
    ensures not_found { NoDigitIsUnmatched }
    ensures long_name { LongNameIsUnmatched }
    ensures no_text { NoTextIsUnmatched }
    ensures value_cut { ValueIs 1023 [] }
    ensures value_whole { ValueIs 1022 (195 ∷ 169 ∷ []) }
    ensures routed_no_text { NoTextIsRoutedToUnmatched }
    ensures routed_second { SecondFinds }
    ensures replaced_literal { LiteralReplaces }
    ensures replaced_no_text { NoTextFails }
    ensures replaced_template { TemplateReplaces }
{}

/// Who came from whom, over a clone and a join; and of entries acknowledged at 3 and at 5 and one that never was,
/// how many were by a moment.
pub fn families_are_told()
    ensures parent { IsAncestorOf 4 2 }
    ensures other_parent { IsAncestorOf 4 3 }
    ensures grandparent { IsAncestorOf 4 1 }
    ensures child { IsDescendantOf 1 2 }
    ensures grandchild { IsDescendantOf 1 4 }
    ensures no_sibling { IsNoAncestorOf 2 3 }
    ensures no_child { IsNoAncestorOf 2 4 }
    ensures no_other { IsNoDescendantOf 3 2 }
    ensures tells_clone { Tells 4 cloned }
    ensures tells_join { Tells 1 joined }
    ensures tells_not { TellsNot 4 stranger }
    ensures names_own { Names stranger 5 true }
    ensures names_parent { Names joined 2 true }
    ensures names_child { Names cloned 2 true }
    ensures names_not { Names joined 1 false }
    ensures named { AnyNames 1 true }
    ensures not_named { AnyNames 6 false }
    ensures acked_before { AcknowledgedIs 2 0 }
    ensures acked_first { AcknowledgedIs 3 1 }
    ensures acked_between { AcknowledgedIs 4 1 }
    ensures acked_second { AcknowledgedIs 5 2 }
    ensures acked_never { AcknowledgedIs 1000 2 }
    ensures acked_in_order { AreInOrder 3 5 acked }
    ensures acked_too_early { AreNotInOrder 4 5 acked }
    ensures acked_too_late { AreNotInOrder 3 4 acked }
    ensures acked_falling { AreNotInOrder 0 9 falling }
    ensures acked_gapped { AreNotInOrder 0 9 gapped }
{}

/// The flows of these tries are sound.
pub fn flows_are_sound()
    ensures get_to_put { IsSound (get_to_put Replace wide) }
    ensures duplicating { IsSound duplicating }
    ensures generating { GeneratingIsSound }
    ensures ring { RingIsSound }
    ensures splitting { IsSound (through split (codes "splits")) }
    ensures merging { IsSound (through merge (codes "merged")) }
    ensures marked { MarkedIsSound }
    ensures contained { ContainedIsNot }
    ensures listed { ListIs (codes "a b") true }
{}

/// Flows that are wrong in one thing.
pub fn flows_are_unsound()
    ensures unconnected { IsUnsound unconnected }
    ensures terminated { IsUnsound terminated }
    ensures into_source { IsUnsound into_source }
    ensures doubled { IsUnsound doubled }
    ensures tight { IsUnsound tight }
    ensures turned { IsUnsound turned }
    ensures blank { IsUnsound blank }
    ensures nowhere { IsUnsound nowhere }
    ensures crowded { IsUnsound crowded }
    ensures strange { IsUnsound strange }
    ensures fanned { IsUnsound fanned }
    ensures alone { AloneIsNotJoined }
    ensures unmarked { UnmarkedIsUnsound }
    ensures exact { ExactIsMarked }
    ensures empty_name { ListIs [] false }
    ensures comma { ListIs (codes "a,b") false }
    ensures blank_front { ListIs (codes " a") false }
    ensures blank_end { ListIs (codes "a ") false }
{}

/// At the second of two connections: each step, whose files a session takes, and what is due of both. A checkpoint
/// and a reclaim at their edges.
pub fn second_queues_are_told()
    ensures expires { SecondExpires }
    ensures not_first { NotOfTheFirst }
    ensures goes { SecondSwapsOut }
    ensures comes { SecondSwapsIn }
    ensures other_batch { FirstsBatchIsNotSeconds }
    ensures takes { TakesOf 2 2 (Some (a_file 2 2 ∷ [])) }
    ensures elsewhere { TakesOf 2 1 None }
    ensures before { TakesOf 1 1 (Some (a_file 1 1 ∷ [])) }
    ensures behind { TakesOf 1 2 None }
    ensures wants { WantsIs (chained (a_file 1 1 ∷ []) []) 1 (PutFile Replace) true }
    ensures wants_not { WantsIs (chained (a_file 1 1 ∷ []) []) 2 (PutFile Replace) false }
    ensures wants_second { WantsIs (chained [] (a_file 1 1 ∷ [])) 2 (PutFile Replace) true }
    ensures held { HeldBackIs (chained [] (a_file 1 1 ∷ [])) 1 true }
    ensures held_not { HeldBackIs (chained [] (a_file 1 1 ∷ [])) 0 false }
    ensures held_by_none { HeldBackIs both_wait 2 false }
    ensures expiry { ExpiryIs (chained (fresh ∷ []) (a_file 3 3 ∷ fresh ∷ a_file 1 4 ∷ [])) 2000
        (Some (1, 1 ∷ 3 ∷ [])) }
    ensures expiry_first { ExpiryIs both_wait 2000 (Some (0, 1 ∷ [])) }
    ensures expiry_none { ExpiryIs both_wait 1499 None }
    ensures swap_out { SwapOutIs (chained (a_file 9 9 ∷ []) three_more) (Some (1, 6 ∷ [])) }
    ensures swap_out_first { SwapOutIs (chained first_three three_more) (Some (0, 3 ∷ [])) }
    ensures swap_out_none { SwapOutIs both_wait None }
    ensures swap_in { SwapInIs
        (chained (a_file 1 1 ∷ []) (in_batch 2 (a_file 2 2) ∷ in_batch 1 (a_file 3 3) ∷ [])) (Some (1, 1)) }
    ensures swap_in_first { SwapInIs both_swapped (Some (0, 1)) }
    ensures swap_in_none { SwapInIs both_wait None }
    ensures checkpoint { CheckpointIs 4096 1 true }
    ensures no_checkpoint { CheckpointIs 4095 1 false }
    ensures last_but_one { CheckpointIs 9999 (last_log - 1) true }
    ensures last { CheckpointIs 9999 last_log false }
    ensures reclaim { ReclaimIs 256 true }
    ensures no_reclaim { ReclaimIs 255 false }
{}

/// Batches of two: which files go, by the queue's order, and which come back. Files in flight go nowhere, count as
/// active where a batch may come back, and count towards full, with the swapped ones.
pub fn batches_are_told()
    ensures last { LastOf [] six (Some (5 ∷ 6 ∷ [])) }
    ensures newest { LastOf (NewestFlowFileFirst ∷ []) six (Some (2 ∷ 1 ∷ [])) }
    ensures few { LastOf [] (nth 1 ∷ nth 2 ∷ nth 3 ∷ nth 4 ∷ nth 5 ∷ []) None }
    ensures odd { OddGoes }
    ensures two_go { StepGives (queued six 7) (SwapOut 0 (6 ∷ 5 ∷ []) 7) (Some (queued two_gone 8)) }
    ensures one_goes_not { StepGives (queued six 7) (SwapOut 0 (6 ∷ []) 7) None }
    ensures twice_goes_not { StepGives (queued six 7) (SwapOut 0 (6 ∷ 6 ∷ []) 7) None }
    ensures views { BatchesAre two_batches (batch 2 2 4 ∷ batch 3 3 6 ∷ []) }
    ensures lower_comes { StepGives (queued two_batches 7) (SwapIn 0 2) (Some (queued lower_back 7)) }
    ensures higher_waits { StepGives (queued two_batches 7) (SwapIn 0 3) None }
    ensures full { FullWith 6 0 two_batches true }
    ensures not_full { FullWith 7 0 two_batches false }
    ensures full_bytes { FullWith 0 12 two_batches true }
    ensures not_full_bytes { FullWith 0 13 two_batches false }
    ensures flight_is_not_eligible { EligibleOf (flying (a_file 1 1) ∷ still 2 ∷ []) (still 2 ∷ []) }
    ensures flight_does_not_expire { ExpiredOf (still 3 ∷ flying (a_file 2 2) ∷ still 1 ∷ view_of late ∷ [])
        (1 ∷ 3 ∷ []) }
    ensures flight_does_not_go { GoesOf (still 1 ∷ still 2 ∷ flying (a_file 3 3) ∷ []) None }
    ensures last_at_rest_goes { GoesOf (still 1 ∷ still 3 ∷ flying (a_file 4 4) ∷ still 2 ∷ []) (Some (3 ∷ [])) }
    ensures penalised_goes { GoesOf (still 1 ∷ still 2 ∷ waiting_penalised 3 ∷ []) (Some (3 ∷ [])) }
    ensures flight_is_active { ComesOf (still 1 ∷ flying (a_file 2 2) ∷ []) None }
    ensures lowest_comes { ComesOf (flying (a_file 2 2) ∷ []) (Some 5) }
    ensures flight_counts { FullOf 4 (still 1 ∷ flying (a_file 2 2) ∷ []) true }
    ensures flight_counts_once { FullOf 5 (still 1 ∷ flying (a_file 2 2) ∷ []) false }
{}
