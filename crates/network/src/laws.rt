//! A law of the definitions, the contract of a function that does nothing.
ghost use Rattle.std.specs.Prelude.{◌≡◌};
ghost use Rattle.network.specs.Pools.{IsBag, Pool, with_sent, without_last};
ghost use Rattle.network.specs.declared.messages.Message.{Message};

/// To take a send back leaves the network as it was before.
pub fn an_unsend_takes_a_send_back()
    ensures { (pool : Pool) (message : Message) → IsBag pool
        → without_last (with_sent pool message) ≡ pool }
{}
