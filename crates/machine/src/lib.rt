// The machine as definitions, and what is proved of every history that it can have.
//
// Each function here is a theorem: it does nothing, and its contract is proved. The statements stand in specs/.
#![tactic(auto)]

ghost use Rattle.machine.specs.Delegation.{TheTestDecidesAuthorisation};
ghost use Rattle.machine.specs.Example.{AnExampleShowsWhatIsDue};
ghost use Rattle.machine.specs.Machine.{TheServiceDoesWhatItIsGivenAndTakes};
ghost use Rattle.machine.specs.Law.{TheLawHoldsAtEveryMoment, NoCommandIsDoneForWhoIsNotAuthorised};

// The law over every history.
pub fn law()
    ensures law_holds_at_every_moment { TheLawHoldsAtEveryMoment }
{}

// The auditor's sentence.
pub fn commands_need_authorisation()
    ensures no_command_is_done_for_who_is_not_authorised { NoCommandIsDoneForWhoIsNotAuthorised }
{}

// The machine's yes or no to a signer is the relation of ownership, entries and chains.
pub fn authorisation()
    ensures the_test_decides_authorisation { TheTestDecidesAuthorisation }
{}

// What becomes of a command.
pub fn commands()
    ensures the_service_does_what_it_is_given_and_takes { TheServiceDoesWhatItIsGivenAndTakes }
{}

// The law is not empty.
pub fn example()
    ensures an_example_shows_what_is_due { AnExampleShowsWhatIsDue }
{}
