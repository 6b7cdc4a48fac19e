// The number of each cause, for whoever hands a refusal on.
#![tactic(auto)]

ghost use Rattle.std.specs.Prelude.{◌≡◌};
ghost use Rattle.rl_spec.specs.Read.{number_of};

use rl_spec::Cause;

pub fn number_of(cause: Cause) -> u64
    ensures { result ≡ number_of cause }
{
    cause as u64
}
