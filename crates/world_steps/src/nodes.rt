//! The replicas, each up or down.
ghost use Rattle.std.specs.Prelude.{◌≡◌, ◌<◌, ◌≤◌, ◌++◌, ◌∷◌, IfOk, OnOk, OnErr, length, slice_get, slice_set, Some};
ghost use Rattle.std.specs.Option.{option_copied};
ghost use Rattle.std.specs.Cmp.Lexicographic.{lists_per, pointwise};
ghost use Rattle.tag.specs.Limits.{replica_limit};
ghost use Rattle.replica.specs.Replicas.{TakesNoMemory, replica_after, reply_of};
ghost use Rattle.world_steps.specs.contracts.nodes.NodePartialEq.TheImpl.Laws as node;
ghost use Rattle.world_steps.specs.declared.nodes.Node.{Node};
ghost use Rattle.world_steps.specs.Nodes.{nodes_below};

use replica::{Replica, Reply, Request};
use std::alloc::Global;
use std::marker::Model;
use tag::{Memory, ReplicaId};

/// A replica that is up or down. A replica that is down keeps what it stored.
#[derive(Debug, Drop, PartialEq)]
pub struct Node {
    pub replica: Replica,
    pub is_up: bool,
}

/// The replicas by number.
#[derive(Debug, Drop)]
pub(crate) struct Nodes {
    list: Vec<Node>,
}

impl Model for Nodes {
    ghost use Rattle.std.specs.Prelude.{List};
    ghost use Rattle.std.specs.Coded.{coded_list};
    ghost use Rattle.world_steps.specs.contracts.nodes.Node as node;
    ghost use Rattle.world_steps.specs.declared.nodes.Node.{Node};

    ghost Value = { List Node };

    ghost coded = { coded_list node.the_row.coded };

    ghost view = { λ n. n.list.items };
}

impl PartialEq for Nodes {
    ghost eq = { pointwise ⟦<Node as PartialEq>⟧.eq };

    ghost laws = { lists_per node.laws-law };

    fn eq(&self, other: &Nodes) -> bool {
        self.list == other.list
    }
}

impl Nodes {
    /// So many replicas, 15 at most, that are up and have stored nothing.
    pub(crate) fn new(alloc: Global, count: u8) -> Result<Nodes, Memory>
        requires { count ≤ replica_limit }
        ensures { IfOk result (λ nodes. nodes ≡ nodes_below count) }
    {
        let mut list = Vec::with_capacity(alloc, usize::from(count))?;
        for number in 0..count {
            let number = ReplicaId::new(number).unwrap();
            list.push(Node {
                replica: Replica::new(alloc, number),
                is_up: true,
            })?;
        }
        Ok(Nodes { list })
    }

    pub(crate) fn len(&self) -> usize
        ensures { result ≡ length self.now }
    {
        self.list.len()
    }

    pub(crate) fn get(&self, number: ReplicaId) -> Option<&Node>
        ensures { option_copied result ≡ slice_get self.now number }
    {
        self.list.get(usize::from(number.get()))
    }

    /// Has a replica handle a request. On `Memory` nothing changed.
    pub(crate) fn handle(&mut self, number: ReplicaId, request: &Request) -> Result<Reply, Memory>
        requires { number < length self.old }
        ensures answer { IfOk result
            (λ reply. (node : Node) → slice_get self.old number ≡ Some node
            → reply ≡ reply_of node.replica request.now) }
        ensures after { OnOk result ((node : Node) → slice_get self.old number ≡ Some node
            → self.new ≡ slice_set self.old number
            (record node { replica = replica_after node.replica request.now })) }
        ensures err { OnErr result (self.new ≡ self.old) }
    {
        let node = &mut self.list[usize::from(number.get())];
        node.replica.handle(request)
    }

    /// Has a replica go up or down.
    pub(crate) fn set_up(&mut self, number: ReplicaId, is_up: bool)
        requires { number < length self.old }
        ensures { (node : Node) → slice_get self.old number ≡ Some node
            → self.new ≡ slice_set self.old number (record node { is_up = is_up }) }
    {
        let node = &mut self.list[usize::from(number.get())];
        node.is_up = is_up;
    }
}
