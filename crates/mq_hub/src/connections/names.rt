//! The names of the connections (4.2).

ghost use Rattle.std.specs.Prelude.{◌≡◌, map, IfOk};
ghost use Rattle.mq_hub.specs.Prelude.{list_any, Conn, knows, same_conn};

use crate::hub::HubOver;
use mq_route::Conn;
use mq_topic::FilterStore;
use std::alloc::{AllocError, Global};

impl<S: FilterStore> HubOver<S> {
    /// Returns the names of the known connections, in the order in which they were opened.
    pub fn connections(&self, alloc: Global) -> Result<Vec<Conn>, AllocError>
        ensures names { IfOk result (λ names. names.items ≡ map (λ x. x.conn) self.now.connections) }
        ensures known { IfOk result (λ names. (conn : Conn) → list_any (λ name. same_conn name conn) names.items ≡ knows conn self.now.connections) }
    {
        self.tables.connections.names(alloc)
    }
}
