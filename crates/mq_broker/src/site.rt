//! The addresses and limits of a broker.

ghost use Rattle.std.specs.Prelude.{◌≡◌};
ghost use Rattle.mq_broker.specs.Prelude.{most_owed};

use crate::options::BrokerOptions;
use mq_decode::Limits;
use mq_loop::LoopLimits;
use std::net::SocketAddr;

/// The number of bytes that a connection may send in one round, if others are ready.
const SHARE: usize = 262_144;

/// The options of a broker, without its configuration.
#[derive(Clone, Copy)]
pub(crate) struct Site {
    /// The address to listen on.
    pub(crate) listen: SocketAddr,
    /// The address of the metrics.
    pub(crate) metrics: Option<SocketAddr>,
    /// The maximum number of connections.
    pub(crate) max_connections: usize,
    /// The limits of the loop.
    pub(crate) limits: LoopLimits,
}

impl Site {
    pub(crate) fn new(options: &BrokerOptions, packets: Limits) -> Site
        ensures listen { result.listen ≡ options.now.listen }
        ensures metrics { result.metrics ≡ options.now.metrics }
        ensures connections { result.max_connections ≡ options.now.max_connections }
        ensures owed { result.limits.most_owed ≡ most_owed options.now }
        ensures packets { result.limits.packets ≡ packets }
    {
        Site {
            listen: options.listen,
            metrics: options.metrics,
            max_connections: options.max_connections,
            limits: LoopLimits {
                share: SHARE,
                most_owed: options.most_owed(),
                packets,
            },
        }
    }
}
