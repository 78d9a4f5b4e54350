// How an end of a connection belongs to a cluster.

ghost use Rattle.std.specs.Prelude.{◌≡◌};
ghost use Rattle.std.specs.Str.{bytes_eq};
ghost use Rattle.links.specs.seal.Clusters.{accepts, cluster_of, is_known};

/// Bytes that name a cluster, the same for all its nodes.
pub const CLUSTER_BYTES: usize = 16;

/// What stands for the cluster in the hello of a node that does not know its own. No cluster has
/// this name.
pub const NO_CLUSTER: [u8; CLUSTER_BYTES] = [0; CLUSTER_BYTES];

/// How an end of a connection belongs to a cluster. So it tells its cluster, and accepts others.
#[derive(Clone, Copy, Debug, PartialEq, Eq)]
pub enum Membership {
    /// It is a node of this cluster, and accepts ends of this cluster.
    Node([u8; CLUSTER_BYTES]),
    /// It is the master of this cluster, and accepts ends of this cluster, and nodes that do not
    /// know theirs yet.
    Master([u8; CLUSTER_BYTES]),
    /// It is a node that does not know its cluster yet, and accepts an end of any cluster.
    Newcomer,
}

impl Membership {
    /// Returns the cluster that this end tells.
    pub fn cluster(self) -> [u8; CLUSTER_BYTES]
        ensures { result ≡ cluster_of self }
    {
        match self {
            Membership::Node(cluster) | Membership::Master(cluster) => cluster,
            Membership::Newcomer => NO_CLUSTER,
        }
    }

    /// Returns true if this end accepts one that tells this cluster.
    pub fn accepts(self, cluster: &[u8; CLUSTER_BYTES]) -> bool
        ensures { result ≡ accepts self cluster.now }
    {
        match self {
            Membership::Node(own) => is_known(cluster) && are_equal(cluster, &own),
            Membership::Master(own) => !is_known(cluster) || are_equal(cluster, &own),
            Membership::Newcomer => is_known(cluster),
        }
    }
}

// Returns true if these bytes name a cluster.
fn is_known(cluster: &[u8; CLUSTER_BYTES]) -> bool
    ensures { result ≡ is_known cluster.now }
{
    !are_equal(cluster, &NO_CLUSTER)
}

// Returns true if two names are equal.
fn are_equal(first: &[u8; CLUSTER_BYTES], second: &[u8; CLUSTER_BYTES]) -> bool
    ensures { result ≡ bytes_eq first.now second.now }
{
    first.as_slice() == second.as_slice()
}
