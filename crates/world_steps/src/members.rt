//! The clients that joined.
ghost use Rattle.std.specs.Prelude.{◌≡◌, ◌==◌, [], OnOk, OnErr, Some};
ghost use Rattle.std.specs.Option.{option_copied};
ghost use Rattle.std.specs.FinMap as finite;
ghost use Rattle.std.specs.Cmp.{and_per, nat_eq_equiv, on_per, partial_equiv_from_equiv};
ghost use Rattle.std.specs.Cmp.Lexicographic.{lists_per, pointwise};
ghost use Rattle.std.specs.Ordering.{eq_of_both, on};
ghost use Rattle.client_phases.specs.contracts.clients.ClientPartialEq.TheImpl.Laws as client;
ghost use Rattle.client_phases.specs.Clients.{MayReceive, client_after, client_after_invoke, phase_of};
ghost use Rattle.client_phases.specs.Clients.{answer_of, client_after_respond, client_after_stop};
ghost use Rattle.client_phases.specs.Clients.{reply_result};
ghost use Rattle.client_phases.specs.declared.clients.Client.{Client};
ghost use Rattle.client_phases.specs.declared.outcomes.Phase.{Phase};
ghost use Rattle.world_steps.specs.Clients.{with_client, with_member};

use client_phases::{Client, Taken};
use replica::Reply;
use std::alloc::Global;
use std::collections::BTreeMap;
use std::marker::Model;
use tag::{Action, ClientId, Key, Memory, OpId, Returned};

/// The names in the order in which they joined, and the client of each.
#[derive(Debug, Drop)]
pub(crate) struct Members {
    joined: Vec<ClientId>,
    clients: BTreeMap<u32, Client>,
}

impl Model for Members {
    ghost use Rattle.std.specs.Prelude.{ℕ, List, refl};
    ghost use Rattle.std.specs.Coded.{code_by, coded×, coded_ℕ, coded_list};
    ghost use Rattle.std.specs.FinMap as finite;
    ghost use Rattle.client_phases.specs.contracts.clients.Client as client;
    ghost use Rattle.world_steps.specs.Clients.{Clients, Members};

    ghost Value = { Members };

    ghost coded = { code_by (List ℕ × Clients) (coded× (coded_list coded_ℕ) (finite.code coded_ℕ
        client.the_row.coded)) (λ m. (m.joined, m.clients)) (λ p. record {
          joined = p.0;
          clients =
              p.1;
        }) (λ _. refl) };

    ghost view = { λ m. record { joined = m.joined.items; clients = finite.from_entries m.clients.entries } };
}

impl PartialEq for Members {
    ghost eq = { eq_of_both (on (λ m. m.joined) (pointwise ◌==◌))
        (on (λ m. finite.entries m.clients)
        (pointwise (eq_of_both (on (λ p. p.0) ◌==◌) (on (λ p. p.1) ⟦<Client as PartialEq>⟧.eq)))) };

    ghost laws = { and_per (on_per (λ m. m.joined) (lists_per (partial_equiv_from_equiv
        nat_eq_equiv))) (on_per (λ m. finite.entries m.clients)
        (lists_per (and_per (on_per (λ p. p.0) (partial_equiv_from_equiv nat_eq_equiv))
        (on_per (λ p. p.1) client.laws-law)))) };

    fn eq(&self, other: &Members) -> bool {
        if self.joined != other.joined || self.clients.len() != other.clients.len() {
            return false;
        }
        self.clients == other.clients
    }
}

impl Members {
    pub(crate) fn new(alloc: Global) -> Members
        ensures { result ≡ record { joined = []; clients = finite.empty } }
    {
        Members {
            joined: Vec::new(alloc),
            clients: BTreeMap::new(alloc),
        }
    }

    pub(crate) fn joined(&self) -> &[ClientId]
        ensures { result.now ≡ self.now.joined }
    {
        self.joined.as_slice()
    }

    pub(crate) fn get(&self, name: ClientId) -> Option<&Client>
        ensures { option_copied result ≡ finite.get self.now.clients name }
    {
        self.clients.get(&name.get())
    }

    /// Adds a client after all others. On `Memory` nothing changed.
    pub(crate) fn add(&mut self, name: ClientId, client: Client) -> Result<(), Memory>
        ensures ok { OnOk result (self.new ≡ with_member self.old name client) }
        ensures err { OnErr result (self.new ≡ self.old) }
    {
        self.joined.reserve(1)?;
        self.clients.insert(name.get(), client)?;
        self.joined.push(name)?;
        Ok(())
    }

    /// Has an idle client begin to ask for a call.
    pub(crate) fn invoke(&mut self, name: ClientId, op: OpId, key: Key, action: Action)
        requires { (client : Client) → finite.get self.old.clients name ≡ Some client
            → phase_of client ≡ Phase.Idle }
        ensures { (client : Client) → finite.get self.old.clients name ≡ Some client
            → self.new ≡ with_client self.old name (client_after_invoke client op key action) }
    {
        if let Some(client) = self.clients.get_mut(&name.get()) {
            client.invoke(op, key, action);
        }
    }

    /// Has a client take a reply.
    pub(crate) fn take(&mut self, name: ClientId, reply: Reply)
        requires { (client : Client) → finite.get self.old.clients name ≡ Some client
            → MayReceive client reply }
        ensures { (client : Client) → finite.get self.old.clients name ≡ Some client
            → self.new ≡ with_client self.old name (client_after client reply) }
    {
        if let Some(client) = self.clients.get_mut(&name.get()) {
            client.take(reply);
        }
    }

    /// Has a client that is ready be idle again. Its answer, if there is such a client.
    pub(crate) fn respond(&mut self, name: ClientId) -> Option<Returned>
        requires { (client : Client) → finite.get self.old.clients name ≡ Some client
            → phase_of client ≡ Phase.Ready }
        ensures after { (client : Client) → finite.get self.old.clients name ≡ Some client
            → self.new ≡ with_client self.old name (client_after_respond client) }
        ensures answer { (client : Client) → finite.get self.old.clients name ≡ Some client
            → result ≡ answer_of client }
    {
        match self.clients.get_mut(&name.get()) {
            Some(client) => Some(client.respond()),
            None => None,
        }
    }

    /// Has a client stop.
    pub(crate) fn stop(&mut self, name: ClientId)
        ensures { (client : Client) → finite.get self.old.clients name ≡ Some client
            → self.new ≡ with_client self.old name (client_after_stop client) }
    {
        if let Some(client) = self.clients.get_mut(&name.get()) {
            client.stop();
        }
    }
}
