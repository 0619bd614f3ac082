ghost use Rattle.replicas.specs.Network.{network_state};
ghost use Rattle.replicas.specs.Replicas.{ReplicasGood};
ghost use Rattle.replicas.specs.Times.{times_of};

use crate::line_times::LineTimes;
use crate::network::Network;

// Registers for each site and key, what is on its way to them, and how long that takes between sites.
#[derive(Clone, Copy)]
pub struct Replicas {
    pub(crate) network: Network,
    pub(crate) times: LineTimes,
    ghost good: { ReplicasGood (network_state network (times_of times)) },
}
