// The worked cases of permission terms and of key hash texts, proved in the definitions that the calls' contracts use.
#![tactic(auto)]

ghost use Rattle.std.specs.Prelude.{◌≡◌};
ghost use Rattle.worked.specs.Worked.{WorkedCases};

const CASES: u8 = 18;

// How many cases `WorkedCases` lists.
fn listed() -> u8
    ensures { result ≡ 18 }
{
    CASES
}

// Each case is a named line of `WorkedCases`; the answer is how many they are.
pub fn worked_cases() -> u8
    ensures every_worked_case_holds { WorkedCases }
    ensures eighteen_are_listed { result ≡ 18 }
{
    listed()
}
