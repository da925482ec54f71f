// The hosts: a map of pages over the caller's bytes, and the layers that stand over any host.
#![tactic(auto)]

ghost use Rattle.host_models.specs.Cap.{CapLaw};
ghost use Rattle.host_models.specs.Inject.{InjectLaw};
ghost use Rattle.host_models.specs.Map.{MapLaw};
ghost use Rattle.host_models.specs.Retry.{RetryLaw};

pub mod at_most;
pub mod cap;
pub mod inject;
pub mod map;
pub mod retry;

// What each host does with every request, as a law in words: it holds of the definitions that the hosts' replies are told by.
pub fn laws()
    ensures map { MapLaw }
    ensures cap { CapLaw }
    ensures retry { RetryLaw }
    ensures inject { InjectLaw }
{}
