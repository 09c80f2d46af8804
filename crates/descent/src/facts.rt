// General facts, each the contract of a function that is named for it.
ghost use Rattle.descent.specs.Facts.{DescentIsReflexiveAndTransitive, PathsSplitAndJoin, RisingRanksRuleOutLoops, LoopFreeMeansNoLoop, LoopFreeLinksHaveRisingRanks};
ghost use Rattle.descent.specs.Facts.{KeptLinksHaveTheSameDescent, SameDescentContainsTheKeptLinks, KeptByTheOtherBases, TrimByDescentKeepsTheKeptLinks};
ghost use Rattle.descent.specs.Facts.{SameRelationGivesSameFlags, NearestExists, NearestIsOne};
ghost use Rattle.descent.specs.Facts.{ComputedDescentIsDescent, ComputedFlagsAreTheFlags};
ghost use Rattle.descent.specs.Worked.{Worked};

use crate::answerer::Answerer;

pub fn descent_is_reflexive_and_transitive()
    ensures { DescentIsReflexiveAndTransitive }
{}

pub fn a_path_splits_and_joins()
    ensures { PathsSplitAndJoin }
{}

pub fn rising_ranks_rule_out_loops()
    ensures { RisingRanksRuleOutLoops }
{}

pub fn links_are_loop_free_exactly_when_they_have_no_loop()
    ensures { LoopFreeMeansNoLoop }
{}

pub fn loop_free_links_have_rising_ranks()
    ensures { LoopFreeLinksHaveRisingRanks }
{}

pub fn kept_links_have_the_same_descent()
    ensures { KeptLinksHaveTheSameDescent }
{}

pub fn every_set_with_that_descent_contains_the_kept_links()
    ensures { SameDescentContainsTheKeptLinks }
{}

pub fn with_rising_ranks_a_link_is_kept_exactly_when_no_other_base_descends_from_its_end()
    ensures { KeptByTheOtherBases }
{}

pub fn trim_by_descent_flags_exactly_the_kept_links_by_one()
    ensures { TrimByDescentKeepsTheKeptLinks }
{}

pub fn two_answerers_with_the_same_relation_give_the_same_flags<P: Answerer, Q: Answerer>()
    ensures { SameRelationGivesSameFlags P.Answerer.count P.Answerer.relates Q.Answerer.count Q.Answerer.relates }
{}

pub fn a_nearest_exists_where_a_common_base_does<P: Answerer>()
    ensures { NearestExists P.Answerer.count P.Answerer.relates }
{}

pub fn a_nearest_is_the_only_one<P: Answerer>()
    ensures { NearestIsOne P.Answerer.count P.Answerer.relates }
{}

pub fn the_computed_descent_is_descent()
    ensures { ComputedDescentIsDescent }
{}

pub fn the_computed_flags_are_the_flags<P: Answerer>()
    ensures { ComputedFlagsAreTheFlags P.Answerer.count P.Answerer.relates }
{}

pub fn the_animals_are_as_worked()
    ensures { Worked }
{}
