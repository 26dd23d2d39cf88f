//! Laws of the definitions, each the contract of a function that does nothing.
ghost use Rattle.std.specs.Prelude.{◌≡◌};
ghost use Rattle.client_phases.specs.Clients.{client_after, reply_result};
ghost use Rattle.client_phases.specs.declared.clients.Client.{Client};
ghost use Rattle.client_phases.specs.declared.outcomes.Taken.{Taken};
ghost use Rattle.replica.specs.declared.replies.Reply.{Reply};

/// A reply counts once: what comes again is stale.
pub fn a_reply_counts_once()
    ensures { (client : Client) (reply : Reply)
        → reply_result (client_after client reply) reply ≡ Taken.Stale }
{}
